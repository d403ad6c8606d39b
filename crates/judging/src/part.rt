// The data of a frame.
ghost use Rattle.std.specs.Prelude.{◌≡◌, ◌+◌, ◌^◌, ◌<◌, ◌≤◌, length};
ghost use Rattle.message.specs.Frames.{parts_verdict, content_length};
ghost use Rattle.judging.specs.Steps.{part_step, parts_seen};

use crate::rules::Rules;
use lines::SeenParts;
use types::TypeLibrary;
use wire::{Reason, Refusal, beyond, le_read, upto};

// How many bytes a data has, by the bytes that begin with its length.
pub fn content_length(bytes: &[u8]) -> usize
    ensures value { result ≡ content_length 1 bytes.now }
    ensures most { result ≤ 255 }
{
    le_read(upto(bytes, 1)) as usize
}

// A data at a place, from the bytes that begin with its length: how long it is with that.
fn check_part(tag: u32, longest: u8, place: usize, bytes: &[u8]) -> Result<usize, Refusal>
    ensures { result ≡ part_step tag longest place bytes.now }
{
    if bytes.len() < 1 {
        return Err(Reason::PastEnd.at(place, tag));
    }
    let n = content_length(bytes);
    if n > usize::from(longest) {
        return Err(Reason::TooMany.at(place, tag));
    }
    if bytes.len() < 1 + n {
        return Err(Reason::PastEnd.at(place, tag));
    }
    Ok(1 + n)
}

impl<'a, L: TypeLibrary> Rules<'a, L> {
    // The data of a template as seen at the version, and then nothing, unless the frame is newer than the dictionary.
    pub fn check_parts(&self, lines: &[u8], place: usize, bytes: &[u8]) -> Result<(), Refusal>
        requires { place + length bytes.now < 2 ^ 62 }
        ensures { result ≡ parts_verdict self.now.newer (parts_seen self.now.version lines.now) place bytes.now }
    {
        let mut rest = bytes;
        let mut at = place;
        for part in SeenParts::of(self.version, lines) {
            let n = check_part(part.tag, part.longest, at, rest)?;
            rest = beyond(rest, n);
            at += n;
        }
        if !self.newer && rest.len() > 0 {
            return Err(Reason::LeftOver.at(at, 0));
        }
        Ok(())
    }
}

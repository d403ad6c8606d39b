// The groups of a frame.
ghost use Rattle.std.specs.Prelude.{◌≡◌, ◌+◌, ◌^◌, ◌<◌, ◌≤◌, length};
ghost use Rattle.message.specs.Frames.{entries_verdict, length_fits, count_fits, entry_length, entry_count};
ghost use Rattle.judging.specs.Steps.{block_at, head_verdict, group_step, groups_step, groups_seen, Within};

use crate::rules::Rules;
use lines::{GroupLine, Groups, length_at};
use types::TypeLibrary;
use wire::{Reason, Refusal, beyond, le_read, upto};

// At most 254 entries. A limit stands in each crate that holds to it, so that an edit of it proves that crate alone.
const MOST_ENTRIES: usize = 254;

// A block's length is its own or, in a frame newer than the dictionary, at least that.
pub fn is_length(newer: bool, given: usize, own: usize) -> bool
    ensures { result ≡ length_fits newer given own }
{
    if newer { own <= given } else { given == own }
}

fn is_count(n: usize) -> bool
    ensures { result ≡ count_fits n }
{
    n <= MOST_ENTRIES
}

// How long an entry is, by the bytes that a group begins with.
pub fn entry_length(bytes: &[u8]) -> usize
    ensures value { result ≡ entry_length bytes.now }
    ensures bound { result ≤ 65535 }
{
    le_read(upto(bytes, 2)) as usize
}

// How many entries there are, by the bytes that a group begins with.
pub fn entry_count(bytes: &[u8]) -> u8
    ensures { result ≡ entry_count bytes.now }
{
    bytes.get(2).copied().unwrap_or(0)
}

// The head of a group at a place: three bytes, an entry length that fits, a count that fits.
fn check_head(newer: bool, tag: u32, own: usize, place: usize, bytes: &[u8]) -> Result<(), Refusal>
    requires { place < 2 ^ 62 }
    ensures { result ≡ head_verdict newer tag own place bytes.now }
{
    if bytes.len() < 3 {
        return Err(Reason::PastEnd.at(place, tag));
    }
    if !is_length(newer, entry_length(bytes), own) {
        return Err(Reason::BlockLength.at(place, tag));
    }
    if !is_count(usize::from(entry_count(bytes))) {
        return Err(Reason::TooMany.at(place + 2, tag));
    }
    Ok(())
}

impl<'a, L: TypeLibrary> Rules<'a, L> {
    // So many entries of a group, each `stride` bytes long, of which the first begins at a place.
    fn check_entries(
        &self,
        group: GroupLine<'_>,
        stride: usize,
        count: usize,
        place: usize,
        bytes: &[u8],
    ) -> Result<(), Refusal>
        requires { place + length bytes.now < 2 ^ 62 }
        ensures { result ≡ entries_verdict self.now.closed (block_at (L.known self.now.library.now) self.now.version group.entry.size group.entry.lines.now) stride group.entry.tag count place bytes.now }
    {
        let own = length_at(self.version, group.size, group.lines) as usize;
        let mut rest = bytes;
        let mut at = place;
        for _ in 0..count {
            if rest.len() < stride {
                return Err(Reason::PastEnd.at(at, group.tag));
            }
            self.check_fields(group.lines, at, own, rest)?;
            rest = beyond(rest, stride);
            at += stride;
        }
        Ok(())
    }

    // A group at a place, from the bytes that begin with it: how long it is.
    fn check_group(
        &self,
        group: GroupLine<'_>,
        place: usize,
        bytes: &[u8],
    ) -> Result<usize, Refusal>
        requires { place + length bytes.now < 2 ^ 61 }
        ensures value { result ≡ group_step (L.known self.now.library.now) self.now.version self.now.closed self.now.newer group.entry.tag group.entry.size group.entry.lines.now place bytes.now }
    {
        let own = usize::from(length_at(self.version, group.size, group.lines));
        check_head(self.newer, group.tag, own, place, bytes)?;
        let stride = entry_length(bytes);
        let count = usize::from(entry_count(bytes));
        self.check_entries(group, stride, count, place + 3, beyond(bytes, 3))?;
        Ok(3 + count * stride)
    }

    // The groups of a template, from the bytes that begin with the first: how long they are.
    pub fn check_groups(&self, lines: &[u8], place: usize, bytes: &[u8]) -> Result<usize, Refusal>
        requires { place + length bytes.now < 2 ^ 61 }
        ensures value { result ≡ groups_step self.now.closed self.now.newer (groups_seen (L.known self.now.library.now) self.now.version lines.now) place bytes.now }
        ensures within { Within result (length bytes.now) }
    {
        let mut rest = bytes;
        let mut passed = 0;
        for group in Groups::of(lines) {
            let n = self.check_group(group, place + passed, rest)?;
            rest = beyond(rest, n);
            passed += n;
        }
        Ok(passed)
    }
}

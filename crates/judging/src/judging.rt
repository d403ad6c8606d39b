// The verdict on a frame.
ghost use Rattle.std.specs.Prelude.{◌≡◌, ◌+◌, ◌^◌, ◌<◌, ◌≤◌, length, Some};
ghost use Rattle.dictionary.specs.Found.{placed_section};
ghost use Rattle.message.specs.Frames.{stated};
ghost use Rattle.message.specs.Messages.{verdict_when};
ghost use Rattle.judging.specs.Steps.{behind_root, contents_step, found_step, template_step, header_verdict};

use crate::group::is_length;
use crate::rules::Rules;
use dictionary::{Found, Section, find};
use lines::{length_at, number_at};
use types::TypeLibrary;
use wire::{Reason, Refusal, beyond, is_frame_length, le_read, upto};

// What the second number of a header has to be. A limit stands in each crate that holds to it, so that an edit of it proves that crate alone.
const ENCODING: u16 = 0xEB50;

// The little-endian number of two bytes at p, or of as many of them as there are.
pub fn stated_at(bytes: &[u8], p: usize) -> u16
    ensures { result ≡ stated bytes.now p }
{
    le_read(upto(beyond(bytes, p), 2)) as u16
}

// The header of a frame: its size, its encoding, its schema id.
fn check_header(dictionary: &[u8], bytes: &[u8]) -> Result<(), Refusal>
    ensures { result ≡ header_verdict dictionary.now bytes.now }
{
    if !is_frame_length(bytes.len()) || usize::from(stated_at(bytes, 0)) != bytes.len() {
        return Err(Reason::FrameSize.at(0, 0));
    }
    if stated_at(bytes, 2) != ENCODING {
        return Err(Reason::Encoding.at(2, 0));
    }
    if stated_at(bytes, 8) != number_at(dictionary, 3) {
        return Err(Reason::SchemaId.at(8, 0));
    }
    Ok(())
}

// A place and the bytes from it on stay two parameters: their bound differs (2^61 for groups, 2^62 for entries and data, 2^63 for padding, and of a block only the place is bound), and a struct with one bound would ask more in some steps.
impl<'a, L: TypeLibrary> Rules<'a, L> {
    // What follows the root block: the groups and the data.
    fn check_behind_root(&self, body: &[u8], place: usize, bytes: &[u8]) -> Result<(), Refusal>
        requires { place + length bytes.now < 2 ^ 61 }
        ensures { result ≡ behind_root (L.known self.now.library.now) self.now.closed self.now.newer self.now.version body.now place bytes.now }
    {
        let n = self.check_groups(body, place, bytes)?;
        self.check_parts(body, place + n, beyond(bytes, n))
    }

    // What follows the header: the root block, whose length the header gives, the groups and the data.
    fn check_contents(&self, section: Section<'_>, given: usize, rest: &[u8]) -> Result<(), Refusal>
        requires small { given ≤ 65535 }
        requires room { length rest.now < 2 ^ 60 }
        ensures { result ≡ contents_step (L.known self.now.library.now) self.now.closed self.now.newer self.now.version section.entry.size section.entry.body.now given rest.now }
    {
        let own = length_at(self.version, section.size, section.body) as usize;
        if !is_length(self.newer, given, own) {
            return Err(Reason::BlockLength.at(4, 0));
        }
        if rest.len() < given {
            return Err(Reason::PastEnd.at(12, 0));
        }
        self.check_fields(section.body, 12, own, rest)?;
        self.check_behind_root(section.body, 12 + given, beyond(rest, given))
    }

    // The template that was found: its types and geometry by the dictionary's last version, and then what follows the header.
    fn check_found(
        &self,
        last: u16,
        found: Found<'_>,
        given: usize,
        rest: &[u8],
    ) -> Result<(), Refusal>
        requires small { given ≤ 65535 }
        requires room { length rest.now < 2 ^ 60 }
        ensures { result ≡ found_step (L.known self.now.library.now) self.now.closed self.now.newer last self.now.version given rest.now (Some (placed_section found.entry)) }
    {
        found.check_geometry(self.library, last)?;
        self.check_contents(found.section, given, rest)
    }
}

// The template that the header names, if it is there at the frame's version.
fn check_template<L: TypeLibrary>(
    library: &L,
    closed: bool,
    dictionary: &[u8],
    bytes: &[u8],
) -> Result<(), Refusal>
    requires { length bytes.now < 2 ^ 60 }
    ensures { result ≡ template_step (L.known library.now) closed dictionary.now bytes.now }
{
    let version = stated_at(bytes, 10);
    let found = find(dictionary, stated_at(bytes, 6), version).ok_or(Reason::UnknownTemplate.at(
        6, 0,
    ))?;
    let last = number_at(dictionary, 5);
    let rules = Rules {
        library,
        version,
        closed,
        newer: last < version,
    };
    rules.check_found(last, found, stated_at(bytes, 4) as usize, beyond(bytes, 12))
}

// The first rule that bytes break as a frame; unless closed, required fields may be absent.
pub fn judge<L: TypeLibrary>(
    library: &L,
    closed: bool,
    dictionary: &[u8],
    bytes: &[u8],
) -> Result<(), Refusal>
    ensures { result ≡ verdict_when closed (L.known library.now) dictionary.now bytes.now }
{
    check_header(dictionary, bytes)?;
    check_template(library, closed, dictionary, bytes)
}

// The calls for C: a dictionary is checked, a frame accepted, and a field or a data found in it, under the number types and the text types together.
#![tactic(auto)]

ghost use Rattle.std.specs.Prelude.{◌≡◌};
ghost use Rattle.wire.specs.Refusals.{number_of};
ghost use Rattle.base.specs.Known.{base_kinds};
ghost use Rattle.schema.specs.Reading.{verdict};
ghost use Rattle.message.specs.Messages.{frame_verdict};
ghost use Rattle.frame.specs.Readings.{shown};
ghost use Rattle.gateway.specs.Answers.{number, place_after, tag_after};
ghost use Rattle.gateway.specs.Finding.{kind_number, kind_found, found_in, kind_after, at_after, length_after};

use base::BASE;
use dictionary::check;
use frame::{Reading, accept};
use types::TypeLibrary;
use wire::Refusal;

// Tells a refusal: its place and tag are written, its number is answered.
fn tell(refusal: Refusal, place: &mut usize, tag: &mut u32) -> u8
    ensures answer { result ≡ number_of refusal.reason }
    ensures told_place { place.new ≡ refusal.place }
    ensures told_tag { tag.new ≡ refusal.tag }
{
    *place = refusal.place;
    *tag = refusal.tag;
    refusal.reason.number()
}

// Tells an answer: the number of a refusal, whose place and tag are written, or 0.
fn told(answer: Result<(), Refusal>, place: &mut usize, tag: &mut u32) -> u8
    ensures answer { result ≡ number answer }
    ensures told_place { place.new ≡ place_after answer place.old }
    ensures told_tag { tag.new ≡ tag_after answer tag.old }
{
    match answer {
        Ok(()) => 0,
        Err(refusal) => tell(refusal, place, tag),
    }
}

// Checks a dictionary. The answer is 0 where no rule is broken, and the place and the tag stand as they were.
// Else it is the number of the refusal, and the place and the tag are the refusal's.
#[unsafe(no_mangle)]
pub extern "C" fn entrypoint_check(dictionary: &[u8], place: &mut usize, tag: &mut u32) -> u8
    ensures answer { result ≡ number (verdict base_kinds dictionary.now) }
    ensures told_place { place.new ≡ place_after (verdict base_kinds dictionary.now) place.old }
    ensures told_tag { tag.new ≡ tag_after (verdict base_kinds dictionary.now) tag.old }
{
    told(check(dictionary, &BASE), place, tag)
}

// Accepts bytes as a frame under a dictionary. The answer is 0 where they are one, and the place and the tag stand as they were.
// Else it is the number of the refusal, and the place and the tag are the refusal's.
#[unsafe(no_mangle)]
pub extern "C" fn entrypoint_accept<'a>(
    dictionary: &'a [u8],
    bytes: &'a [u8],
    place: &mut usize,
    tag: &mut u32,
) -> u8
    ensures answer { result ≡ number (frame_verdict base_kinds dictionary.now bytes.now) }
    ensures told_place { place.new ≡ place_after (frame_verdict base_kinds dictionary.now bytes.now) place.old }
    ensures told_tag { tag.new ≡ tag_after (frame_verdict base_kinds dictionary.now bytes.now) tag.old }
{
    told(accept(dictionary, &BASE, bytes).map(|_| ()), place, tag)
}

// What is found. The C interface takes the numbers.
#[derive(Clone, Copy)]
enum Kind {
    // A field that is absent.
    Absent = 0,
    // A field that has a value.
    Value = 1,
    Data = 2,
}

impl Kind {
    // The number that tells the kind to C.
    fn number(self) -> u8
        ensures { result ≡ kind_number self }
    {
        self as u8
    }
}

impl From<Reading<'_>> for Kind {
    ghost from_gives = { λ reading kind. kind ≡ kind_found (shown reading) };

    fn from(reading: Reading<'_>) -> Self {
        match reading {
            Reading::Absent => Kind::Absent,
            Reading::Value(_) => Kind::Value,
            Reading::Data(_) => Kind::Data,
        }
    }
}

// What is found, where its part begins in the frame and how long it is: 0 and 0 where its line is newer than the frame.
#[derive(Clone, Copy)]
struct Finding {
    kind: Kind,
    place: usize,
    length: usize,
}

// What bytes that are accepted as a frame have at a group, an entry and a tag.
fn found<'a>(
    dictionary: &'a [u8],
    bytes: &'a [u8],
    group: u32,
    entry: usize,
    tag: u32,
) -> Result<Finding, Refusal>
    ensures { result ≡ found_in base_kinds dictionary.now bytes.now group entry tag }
{
    let frame = accept(dictionary, &BASE, bytes)?;
    let reading = frame.read(&BASE, group, entry, tag)?;
    let spot = frame.spot(&BASE, group, entry, tag)?;
    Ok(Finding {
        kind: Kind::from(reading),
        place: spot.place,
        length: spot.length,
    })
}

// Accepts bytes as a frame under a dictionary and finds what it has at a group, an entry and a tag; the root is group 0, with the one entry 0.
// The answer is 0 where it is found: the kind, where its part begins and how long it is are written, and the refusal's place and tag stand as they were.
// Else it is the number of the refusal, that of acceptance first: its place and tag are written, and the other three stand as they were.
#[unsafe(no_mangle)]
pub extern "C" fn entrypoint_find<'a>(
    dictionary: &'a [u8],
    bytes: &'a [u8],
    group: u32,
    entry: usize,
    tag: u32,
    kind: &mut u8,
    at: &mut usize,
    length: &mut usize,
    place: &mut usize,
    refused: &mut u32,
) -> u8
    ensures answer { result ≡ number (found_in base_kinds dictionary.now bytes.now group entry tag) }
    ensures found_kind { kind.new ≡ kind_after (found_in base_kinds dictionary.now bytes.now group entry tag) kind.old }
    ensures found_at { at.new ≡ at_after (found_in base_kinds dictionary.now bytes.now group entry tag) at.old }
    ensures found_length { length.new ≡ length_after (found_in base_kinds dictionary.now bytes.now group entry tag) length.old }
    ensures told_place { place.new ≡ place_after (found_in base_kinds dictionary.now bytes.now group entry tag) place.old }
    ensures told_tag { refused.new ≡ tag_after (found_in base_kinds dictionary.now bytes.now group entry tag) refused.old }
{
    match found(dictionary, bytes, group, entry, tag) {
        Ok(finding) => {
            *kind = finding.kind.number();
            *at = finding.place;
            *length = finding.length;
            0
        }
        Err(refusal) => tell(refusal, place, refused),
    }
}

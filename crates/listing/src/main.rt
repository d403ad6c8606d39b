// Lists what a recorded stream holds.
#![tactic(auto)]

ghost use Rattle.std.specs.Prelude.{◌≡◌, ◌<◌, length, take, Some};
ghost use Rattle.std.specs.Option.{option_map};
ghost use Rattle.types.specs.Answers.{meant_by};
ghost use Rattle.frame.specs.Spots.{shown_item};
ghost use Rattle.listing.specs.Lines.{dictionary, refused, shown_line, field_line, value_line, item_line, frame_line, told_next, line_at, Within};
ghost use Rattle.listing.specs.Written.{written};

use base::BASE;
use dictionary::check;
use frame::{Frame, Item, Walk, accept};
use judging::stated_at;
use numbers::Numbers;
use printing::{Content, Hex, PlaceAndNumber, read_dictionary, read_start};
use std::fmt;
use std::ops::ControlFlow;
use text::Texts;
use types::{Joined, TypeLibrary, Value};
use wire::{Piece, Refusal, cut, located, tail, upto};

// How many bytes of the stream are looked at.
const LONGEST: usize = 65536;

// A line of the listing.
#[derive(Clone, Copy)]
enum Line<'a> {
    // The dictionary is refused.
    Dictionary {
        refusal: Refusal,
    },
    // A frame begins at the place.
    Frame {
        place: usize,
        length: usize,
        template: u16,
        version: u16,
    },
    // A field of the root.
    Root {
        tag: u32,
        value: Option<Value<'a>>,
    },
    // A field of an entry.
    Entry {
        tag: u32,
        value: Option<Value<'a>>,
    },
    // A group with so many entries.
    Group {
        tag: u32,
        count: u8,
    },
    // A data.
    Data {
        tag: u32,
        content: &'a [u8],
    },
    // What begins at the place is refused.
    Refused {
        place: usize,
        refusal: Refusal,
    },
    // Of what begins at the place so many bytes are missing.
    Waiting {
        place: usize,
        count: usize,
    },
}

impl fmt::Display for Line<'_> {
    ghost output = { λ x. Some (written (shown_line x)) };

    fn fmt<W: fmt::Write>(&self, f: &mut fmt::Formatter<W>) -> fmt::Result {
        match *self {
            Line::Dictionary { refusal } => write!(f, "D {}", PlaceAndNumber(refusal)),
            Line::Frame {
                place,
                length,
                template,
                version,
            } => write!(f, "F {place} {length} {template} {version}"),
            Line::Root { tag, value } => write!(f, "r {tag} {}", Content(value)),
            Line::Entry { tag, value } => write!(f, "e {tag} {}", Content(value)),
            Line::Group { tag, count } => write!(f, "g {tag} {count}"),
            Line::Data { tag, content } => write!(f, "d {tag} {}", Hex(content)),
            Line::Refused { place, refusal } => write!(f, "X {place} {refusal}"),
            Line::Waiting { place, count } => write!(f, "W {place} {count}"),
        }
    }
}

// The line of a refused dictionary, for which each program has its own kind of line.
fn dictionary_line<'a>(refusal: Refusal) -> Line<'a>
    ensures { shown_line result ≡ dictionary refusal }
{
    Line::Dictionary { refusal }
}

// The line of what begins at the place and is refused.
fn refused_line<'a>(place: usize, refusal: Refusal) -> Line<'a>
    ensures { shown_line result ≡ refused place refusal }
{
    Line::Refused { place, refusal }
}

// The line of a frame that begins at the place.
fn frame_line<'a>(place: usize, bytes: &[u8]) -> Line<'a>
    ensures { shown_line result ≡ frame_line place bytes.now }
{
    Line::Frame {
        place,
        length: bytes.len(),
        template: stated_at(bytes, 6),
        version: stated_at(bytes, 10),
    }
}

// What begins at a place of the stream: a frame, or the line that ends the listing.
fn next_frame<'a>(
    dictionary: &'a [u8],
    stream: &'a [u8],
    place: usize,
) -> Result<Frame<'a>, Line<'a>>
    requires { place < length stream.now }
    ensures value { told_next place result ≡ line_at dictionary.now stream.now place }
    ensures within { Within result place (length stream.now) }
{
    let piece = cut(tail(stream, place)).map_err(|refusal| Line::Refused { place, refusal })?;
    match piece {
        Piece::Frame { frame, .. } => {
            accept(dictionary, &BASE, frame).map_err(|refusal| Line::Refused { place, refusal })
        }
        Piece::Missing(count) => Err(Line::Waiting { place, count }),
    }
}

// What tells the items of the frame at `place`. A field is of an entry if it is inside a group: a fact, as the definition of the lines has it, and an enum of two would say no more.
#[derive(Clone, Copy)]
struct Teller<'a, L> {
    library: &'a L,
    place: usize,
    inside: bool,
}

impl<L: TypeLibrary> Teller<'_, L> {
    // The line of a field, of the root or inside a group.
    fn field_line<'b>(&self, tag: u32, value: Option<Value<'b>>) -> Line<'b>
        ensures { shown_line result ≡ field_line self.now.inside tag (meant_by value.entry) }
    {
        if self.inside {
            Line::Entry { tag, value }
        } else {
            Line::Root { tag, value }
        }
    }

    // The line of a field, by its bytes at the place `at` of the frame.
    fn value_line<'b>(
        &self,
        at: usize,
        tag: u32,
        number: u8,
        argument: &[u8],
        bytes: &'b [u8],
    ) -> Line<'b>
        ensures { shown_line result ≡ value_line (L.known self.now.library.now) self.now.inside self.now.place at tag number argument.now bytes.now }
    {
        match located(self.library.read(number, argument, bytes), at, tag) {
            Ok(value) => self.field_line(tag, value),
            Err(refusal) => Line::Refused {
                place: self.place,
                refusal,
            },
        }
    }

    // The line of an item, and none for the end.
    fn item_line<'b>(&self, item: Item<'b>) -> Option<Line<'b>>
        ensures { option_map shown_line result ≡ option_map (item_line (L.known self.now.library.now) self.now.inside self.now.place) (shown_item item.entry) }
    {
        match item {
            Item::Field {
                place: at,
                tag,
                number,
                argument,
                bytes,
            } => Some(self.value_line(at, tag, number, argument, bytes)),
            Item::Group { tag, count, .. } => Some(Line::Group { tag, count }),
            Item::Data { tag, content, .. } => Some(Line::Data { tag, content }),
            Item::End => None,
        }
    }
}

// Prints the line of each item that is left of a walk over the frame at `place`. A refused item ends the listing.
// A walk answers its end as an item, so it is no iterator to go through by `for`.
fn print_items(
    rt: &HostRuntime,
    place: usize,
    mut walk: Walk<'_, Joined<Numbers, Texts>>,
) -> anyhow::Result<ControlFlow<()>> {
    let mut teller = Teller {
        library: &BASE,
        place,
        inside: false,
    };
    while let Some(line) = teller.item_line(walk.next()) {
        rt.println(line)?;
        match line {
            Line::Group { .. } => {
                teller.inside = true;
            }
            Line::Refused { .. } => {
                return Ok(ControlFlow::Break(()));
            }
            _ => {}
        }
    }
    Ok(ControlFlow::Continue(()))
}

// Prints the lines of the frame at `place`.
fn print_frame<'a>(
    rt: &HostRuntime,
    library: &'a Joined<Numbers, Texts>,
    place: usize,
    frame: Frame<'a>,
) -> anyhow::Result<ControlFlow<()>> {
    rt.println(frame_line(place, frame.bytes()))?;
    match frame.walk(library) {
        Ok(walk) => print_items(rt, place, walk),
        Err(refusal) => {
            rt.println(refused_line(place, refusal))?;
            Ok(ControlFlow::Break(()))
        }
    }
}

// Prints the lines of a stream. The place goes on by whole frames and stands in their lines: an iterator over the frames would keep the same place.
fn print_stream<'a>(
    rt: &HostRuntime,
    library: &'a Joined<Numbers, Texts>,
    dictionary: &'a [u8],
    stream: &'a [u8],
) -> anyhow::Result<()> {
    let mut place = 0;
    while place < stream.len() {
        match next_frame(dictionary, stream, place) {
            Ok(frame) => {
                if print_frame(rt, library, place, frame)?.is_break() {
                    return Ok(());
                }
                place += frame.bytes().len();
            }
            Err(line) => {
                rt.println(line)?;
                return Ok(());
            }
        }
    }
    Ok(())
}

// What of a stream is looked at.
fn looked_at(stream: &[u8]) -> &[u8]
    ensures { result.now ≡ take 65536 stream.now }
{
    upto(stream, LONGEST)
}

// Reads the dictionary and, unless it is refused, the stream, and prints the lines.
fn run(rt: &HostRuntime) -> anyhow::Result<()> {
    let dictionary = read_dictionary(rt)?;
    if let Err(refusal) = check(dictionary.as_slice(), &BASE) {
        rt.println(dictionary_line(refusal))?;
        return Ok(());
    }
    let stream = read_start(rt.alloc(), rt.stdin(), LONGEST)?;
    let library = BASE;
    print_stream(
        rt,
        &library,
        dictionary.as_slice(),
        looked_at(stream.as_slice()),
    )
}

fn main(rt: HostRuntime) -> anyhow::Result<()> {
    run(&rt)
}

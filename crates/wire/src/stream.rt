// Cutting a stream into frames.
ghost use Rattle.std.specs.Prelude.{◌≡◌};
ghost use Rattle.wire.specs.Streams.{told, shown, first, frame_length, front_of, FrontStandsAsTheStreamGrows, MakesUp};

use crate::number::{le_read, part};
use crate::refusal::{Reason, Refusal};

// The front of a stream: how many bytes of its first frame are missing, or that frame and the rest.
// It is no Result: bytes that are still to come are no refusal.
#[derive(Clone, Copy)]
pub enum Piece<'a> {
    Missing(usize),
    Frame { frame: &'a [u8], rest: &'a [u8] },
}

// The header is 12 bytes, the longest frame 16,384.
const HEADER: usize = 12;

const LONGEST: usize = 16384;

// What the second number of a header has to be.
const ENCODING: u64 = 0xEB50;

// Whether a frame can have this length.
pub fn is_frame_length(n: usize) -> bool
    ensures { result ≡ frame_length n }
{
    (HEADER..=LONGEST).contains(&n)
}

// The first `length` bytes of the stream and the rest, or how many are missing.
fn split<'a>(stream: &'a [u8], length: usize) -> Piece<'a>
    ensures { shown result ≡ first length stream.now }
{
    match stream.split_at_checked(length) {
        Some((frame, rest)) => Piece::Frame { frame, rest },
        None => Piece::Missing(length - stream.len()),
    }
}

// What the front of a stream is, by its first four bytes.
fn front(stream: &[u8]) -> Result<Piece<'_>, Refusal>
    ensures { told result ≡ front_of stream.now }
{
    if stream.len() < 4 {
        return Ok(Piece::Missing(4 - stream.len()));
    }
    if le_read(part(stream, 2, 2)) != ENCODING {
        return Err(Reason::Encoding.at(2, 0));
    }
    let length = le_read(part(stream, 0, 2)) as usize;
    if !is_frame_length(length) {
        return Err(Reason::FrameSize.at(0, 0));
    }
    Ok(split(stream, length))
}

// Cuts the first frame off a stream. Of the header it looks at the length and the encoding only.
pub fn cut(stream: &[u8]) -> Result<Piece<'_>, Refusal>
    ensures value { told result ≡ front_of stream.now }
    ensures parts { MakesUp (told result) stream.now }
    ensures grows { FrontStandsAsTheStreamGrows stream.now }
{
    front(stream)
}

// The lines that are printed.
ghost use Rattle.std.specs.Prelude.{◌≡◌, Some};
ghost use Rattle.order.specs.Said.{line_of};
ghost use Rattle.order.specs.Written.{written};

use printing::{Hex, PlaceAndNumber};
use replay::Answer;
use std::fmt;
use wire::Refusal;

// A line that is printed.
#[derive(Clone, Copy)]
pub(crate) enum Line<'a> {
    // The dictionary is refused.
    Dictionary { refusal: Refusal },
    // A call is accepted, or a buffer is there.
    Accepted,
    // A call is refused.
    Refused { refusal: Refusal },
    // A call is not made, since the form is not open or not closed as it would have to be.
    OutOfTurn,
    // The frame of the form that was closed.
    Frame { bytes: &'a [u8] },
    // The whole buffer.
    Buffer { bytes: &'a [u8] },
    // The line of this number is no call.
    Bad { number: usize },
}

impl fmt::Display for Line<'_> {
    ghost output = { λ x. Some (written x) };

    fn fmt<W: fmt::Write>(&self, f: &mut fmt::Formatter<W>) -> fmt::Result {
        match *self {
            Line::Dictionary { refusal } => write!(f, "D {}", PlaceAndNumber(refusal)),
            Line::Accepted => f.write_str("ok"),
            Line::Refused { refusal } => write!(f, "refused {refusal}"),
            Line::OutOfTurn => f.write_str("out of turn"),
            Line::Frame { bytes } => write!(f, "frame {}", Hex(bytes)),
            Line::Buffer { bytes } => write!(f, "buffer {}", Hex(bytes)),
            Line::Bad { number } => write!(f, "bad line {number}"),
        }
    }
}

impl From<Answer> for Line<'_> {
    ghost from_gives = { λ answer line. line ≡ line_of answer };

    fn from(answer: Answer) -> Self {
        match answer {
            Answer::Accepted => Line::Accepted,
            Answer::Refused(refusal) => Line::Refused { refusal },
            Answer::OutOfTurn => Line::OutOfTurn,
        }
    }
}

// The line of a refused dictionary, for which each program has its own kind of line.
pub(crate) fn dictionary_line<'a>(refusal: Refusal) -> Line<'a>
    ensures { result ≡ Line.Dictionary refusal }
{
    Line::Dictionary { refusal }
}

// The line that says that all is well.
pub(crate) fn accepted_line<'a>() -> Line<'a>
    ensures { result ≡ Line.Accepted }
{
    Line::Accepted
}

// The line about a line that is no call.
pub(crate) fn bad_line<'a>(number: usize) -> Line<'a>
    ensures { result ≡ Line.Bad number }
{
    Line::Bad { number }
}

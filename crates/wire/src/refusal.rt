// A refusal has a reason, a place and a tag.
ghost use Rattle.std.specs.Prelude.{◌≡◌, Some};
ghost use Rattle.wire.specs.Refusals.{number_of, refusal, plain, moved_up, located_as, Room};
ghost use Rattle.wire.specs.Written.{written};

use std::fmt;

// Why something is refused. The discriminants are the numbers of the refusals.
#[derive(Clone, Copy, PartialEq, Eq)]
pub enum Reason {
    DictionarySize = 1,
    Layout = 2,
    LineShape = 3,
    LineName = 4,
    UnknownType = 5,
    LineGeometry = 6,
    FrameSize = 10,
    Encoding = 11,
    SchemaId = 12,
    UnknownTemplate = 13,
    BlockLength = 14,
    Padding = 15,
    NoPattern = 16,
    RequiredAbsent = 17,
    PastEnd = 18,
    TooMany = 19,
    LeftOver = 20,
    CannotOpen = 21,
    NotFound = 22,
    NoSuchValue = 23,
    NoRoom = 24,
    NotThisForm = 25,
    Full = 26,
    TooLong = 27,
}

impl Reason {
    // The number of the reason, 1 to 6 or 10 to 27.
    pub fn number(self) -> u8
        ensures { result ≡ number_of self }
    {
        self as u8
    }

    // A refusal for this reason at the place, with the tag.
    pub fn at(self, place: usize, tag: u32) -> Refusal
        ensures { result ≡ refusal self place tag }
    {
        Refusal {
            reason: self,
            place,
            tag,
        }
    }

    // A refusal for this reason that has no place yet.
    pub fn plain(self) -> Refusal
        ensures { result ≡ plain self }
    {
        self.at(0, 0)
    }
}

#[derive(Clone, Copy, PartialEq, Eq)]
pub struct Refusal {
    pub reason: Reason,
    pub place: usize,
    pub tag: u32,
}

impl fmt::Display for Refusal {
    ghost output = { λ e. Some (written e) };

    fn fmt<W: fmt::Write>(&self, f: &mut fmt::Formatter<W>) -> fmt::Result {
        let number = self.reason.number();
        let place = self.place;
        let tag = self.tag;
        write!(f, "{number} {place} {tag}")
    }
}

// What rises from an object that begins at `place` and has the tag.
pub fn located<T>(r: Result<T, Refusal>, place: usize, tag: u32) -> Result<T, Refusal>
    requires { Room r place }
    ensures { result ≡ located_as r place tag }
{
    r.map_err(|e| e.reason.at(e.place + place, tag))
}

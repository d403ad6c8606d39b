// Reading a frame by group, entry and tag.
ghost use Rattle.std.specs.Prelude.{◌≡◌};
ghost use Rattle.types.specs.Kinds.{Known};
ghost use Rattle.schema.specs.Reading.{dictionary_of};
ghost use Rattle.schema.specs.Verdicts.{fine};
ghost use Rattle.schema.specs.Laws.{Checked};
ghost use Rattle.message.specs.Messages.{frame_verdict, message_of};
ghost use Rattle.message.specs.Lookup.{frame_reading, message_reading};
ghost use Rattle.message.specs.Spots.{spot_reading};
ghost use Rattle.message.specs.Laws.{SameKindsFor};
ghost use Rattle.frame.specs.Holding.{shown_held};
ghost use Rattle.frame.specs.Readings.{shown_reading};

use crate::accepted::Frame;
use crate::held::Held;
use judging::width_of;
use types::{TypeLibrary, Value};
use wire::{Refusal, beyond, located, upto};

// What is read: that a field is absent, its value, or the bytes of a data.
#[derive(Clone, Copy)]
pub enum Reading<'a> {
    Absent,
    Value(Value<'a>),
    Data(&'a [u8]),
}

impl<'d> Held<'d> {
    // What the bytes of a frame read there: absent, or no bytes, where the line is newer than the frame.
    fn reading<'a, L: TypeLibrary>(
        self,
        library: &L,
        bytes: &'a [u8],
    ) -> Result<Reading<'a>, Refusal>
        ensures { shown_reading result ≡ spot_reading (L.known library.now) bytes.now (shown_held self.entry) }
    {
        match self {
            Held::Field { place, field } => {
                let bytes = upto(beyond(bytes, place), width_of(library, field));
                let read = library.read(field.number, field.argument, bytes);
                let value = located(read, place, field.tag)?;
                Ok(value.map_or(Reading::Absent, Reading::Value))
            }
            Held::Data { place, length } => Ok(Reading::Data(upto(beyond(bytes, place), length))),
            Held::NewerField => Ok(Reading::Absent),
            Held::NewerData => Ok(Reading::Data(upto(bytes, 0))),
        }
    }
}

impl<'a> Frame<'a> {
    // What the frame has at a group, an entry and a tag, by the lines of its template in its dictionary, those newer than the frame too.
    // Of a frame that was accepted under a checked dictionary, this is what its message has there, also if another library accepted it that knows the same kinds for its template.
    // A rule of the project: group, entry and tag are given one by one.
    pub fn read<L: TypeLibrary>(
        &self,
        library: &L,
        group: u32,
        entry: usize,
        tag: u32,
    ) -> Result<Reading<'a>, Refusal>
        ensures value { shown_reading result ≡ frame_reading (L.known library.now) self.now.dictionary.now self.now.bytes.now group entry tag }
        ensures message { Checked (L.known library.now) self.now.dictionary.now → frame_verdict (L.known library.now) self.now.dictionary.now self.now.bytes.now ≡ fine → shown_reading result ≡ message_reading (dictionary_of self.now.dictionary.now) (message_of (L.known library.now) (dictionary_of self.now.dictionary.now) self.now.bytes.now) group entry tag }
        ensures another { Checked (L.known library.now) self.now.dictionary.now → (other : Known) → frame_verdict other self.now.dictionary.now self.now.bytes.now ≡ fine → SameKindsFor (L.known library.now) other self.now.dictionary.now self.now.bytes.now → shown_reading result ≡ message_reading (dictionary_of self.now.dictionary.now) (message_of other (dictionary_of self.now.dictionary.now) self.now.bytes.now) group entry tag }
    {
        let held = self.held(library, group, entry, tag)?;
        held.reading(library, self.bytes)
    }
}

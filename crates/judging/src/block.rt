// A block of fields in a frame.
ghost use Rattle.std.specs.Prelude.{◌≡◌, ◌+◌, ◌^◌, ◌<◌, ◌≤◌, ◌&&◌, length, ◌==◌};
ghost use Rattle.dictionary.specs.Shown.{shown_field};
ghost use Rattle.schema.specs.Geometry.{kind_of, width_or_0};
ghost use Rattle.message.specs.Blocks.{padding_verdict, field_verdict, fields_verdict};
ghost use Rattle.judging.specs.Steps.{slots_from, one_verdict};

use crate::rules::Rules;
use dictionary::FieldLine;
use lines::SeenFields;
use types::TypeLibrary;
use wire::{Reason, Refusal, beyond, located, upto};

// Padding is zero, byte by byte from a place on.
fn check_padding(bytes: &[u8], place: usize) -> Result<(), Refusal>
    requires { place + length bytes.now < 2 ^ 63 }
    ensures { result ≡ padding_verdict place bytes.now }
{
    match bytes.iter().position(|b| *b != 0) {
        Some(i) => Err(Reason::Padding.at(place + i, 0)),
        None => Ok(()),
    }
}

// The width of a field, 0 where its type is unknown.
pub fn width_of<L: TypeLibrary>(library: &L, f: FieldLine<'_>) -> usize
    ensures value { result ≡ width_or_0 (kind_of (L.known library.now) (shown_field f.entry)) }
    ensures bound { result ≤ 20 }
{
    library.width(f.number, f.argument).unwrap_or(0)
}

impl<'a, L: TypeLibrary> Rules<'a, L> {
    // The bytes of a field at a place are a pattern, and it is not absent if it is required.
    fn check_field(&self, f: FieldLine<'_>, place: usize, bytes: &[u8]) -> Result<(), Refusal>
        ensures { result ≡ field_verdict (kind_of (L.known self.now.library.now) (shown_field f.entry)) (self.now.closed && f.entry.presence == 1) place f.entry.tag bytes.now }
    {
        let value = located(self.library.read(f.number, f.argument, bytes), place, f.tag)?;
        match value {
            None if self.closed && f.presence == 1 => Err(Reason::RequiredAbsent.at(place, f.tag)),
            _ => Ok(()),
        }
    }

    // A field's padding and then its bytes; `rest` begins where the field above ends, at `at` of the block.
    fn check_one(
        &self,
        f: FieldLine<'_>,
        base: usize,
        at: usize,
        rest: &[u8],
    ) -> Result<(), Refusal>
        requires room { base < 2 ^ 62 }
        requires inside { at ≤ 65555 }
        ensures { result ≡ one_verdict (L.known self.now.library.now) self.now.closed base at (shown_field f.entry) rest.now }
    {
        let gap = usize::from(f.offset).saturating_sub(at);
        check_padding(upto(rest, gap), base + at)?;
        let width = width_of(self.library, f);
        self.check_field(
            f,
            base + usize::from(f.offset),
            upto(beyond(rest, gap), width),
        )
    }

    // The fields of a block at place `base`, as seen at the version: `lines` begins with their lines, and `bytes` with the block, `size` bytes long.
    pub fn check_fields(
        &self,
        lines: &[u8],
        base: usize,
        size: usize,
        bytes: &[u8],
    ) -> Result<(), Refusal>
        requires room { base < 2 ^ 62 }
        requires block { size ≤ 65535 }
        ensures { result ≡ fields_verdict self.now.closed base 0 (slots_from (L.known self.now.library.now) self.now.version lines.now) size bytes.now }
    {
        let mut rest = bytes;
        let mut at = 0;
        for f in SeenFields::of(self.version, lines) {
            self.check_one(f, base, at, rest)?;
            let gap = (f.offset as usize).saturating_sub(at);
            let width = width_of(self.library, f);
            rest = beyond(beyond(rest, gap), width);
            at = f.offset as usize + width;
        }
        check_padding(upto(rest, size.saturating_sub(at)), base + at)
    }
}

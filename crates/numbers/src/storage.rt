// Patterns of the number types.
ghost use Rattle.std.specs.Prelude.{◌≡◌, Some};
ghost use Rattle.wire.specs.Numbers.{le_bytes};
ghost use Rattle.types.specs.Meanings.{meaning};
ghost use Rattle.types.specs.Patterns.{pattern_bytes};
ghost use Rattle.types.specs.Answers.{meant, patterned, read_of, pattern_of};
ghost use Rattle.numbers.specs.Numerics.{bytes_in};
ghost use Rattle.numbers.specs.Kinds.{numeric_kind};

use crate::numeric::{Numeric, Width};
use types::{Pattern, Value};
use wire::{Reason, Refusal, le_put, le_read, upto};

impl Width {
    // The bits in as many bytes as the width has, the little end first.
    pub(crate) fn stored(self, bits: u64) -> Pattern
        ensures { pattern_bytes result ≡ le_bytes (bytes_in self) bits }
    {
        let mut held = [0; 8];
        le_put(&mut held, bits);
        Pattern::of(upto(&held, self.bytes()))
    }
}

impl Numeric {
    // The pattern that a cleared field holds: the one that means absent, or zero.
    pub(crate) fn blank(self) -> Pattern
        ensures { pattern_bytes result ≡ (numeric_kind self).blank }
    {
        self.width.stored(self.absent_bits().unwrap_or(0))
    }

    // What the bytes mean at the type of numbers.
    pub(crate) fn read<'a>(self, bytes: &[u8]) -> Result<Option<Value<'a>>, Refusal>
        ensures { meant result ≡ read_of (Some (numeric_kind self)) bytes.now }
    {
        if bytes.len() != self.width.bytes() {
            return Err(Reason::NoPattern.plain());
        }
        let bits = le_read(bytes);
        if self.is_absent(bits) {
            return Ok(None);
        }
        Ok(Some(self.value_of(bits)))
    }

    // The pattern of a value; the one that means absent is no value's.
    pub(crate) fn write(self, value: Value<'_>) -> Result<Pattern, Refusal>
        ensures { patterned result ≡ pattern_of (Some (numeric_kind self)) (meaning value.entry) }
    {
        match self.bits_of(value) {
            Some(bits) if !self.is_absent(bits) => Ok(self.width.stored(bits)),
            _ => Err(Reason::NoSuchValue.plain()),
        }
    }
}

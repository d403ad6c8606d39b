// Patterns of text.
ghost use Rattle.std.specs.Prelude.{◌≡◌, ◌-◌, ◌≤◌, true, ◌++◌, length, Some};
ghost use Rattle.types.specs.Meanings.{meaning};
ghost use Rattle.types.specs.Answers.{meant, patterned, read_of, pattern_of};
ghost use Rattle.types.specs.Patterns.{pattern_bytes};
ghost use Rattle.text.specs.Texts.{zeros, holds, text_kind};

use crate::characters::{front, is_zero};
use crate::shape::Text;
use types::{Pattern, Value};
use wire::{Reason, Refusal};

// The widest text.
pub(crate) const WIDEST: u8 = 20;

impl Text {
    // The characters and then zeros.
    fn padded(self, characters: &[u8]) -> Pattern
        requires { length characters.now ≤ self.width }
        ensures { pattern_bytes result ≡ characters.now ++ zeros (self.width - length characters.now) }
    {
        let mut bytes = [0; WIDEST as usize];
        bytes[..characters.len()].copy_from_slice(characters);
        Pattern::of(&bytes[..self.width])
    }

    // The pattern that a cleared field holds: no character.
    pub(crate) fn blank(self) -> Pattern
        ensures { pattern_bytes result ≡ (text_kind self.width).blank }
    {
        self.padded(&[])
    }

    // What the bytes mean: the characters that come first, if only zeros follow.
    pub(crate) fn read<'a>(self, bytes: &'a [u8]) -> Result<Option<Value<'a>>, Refusal>
        ensures { meant result ≡ read_of (Some (text_kind self.width)) bytes.now }
    {
        let (characters, rest) = bytes.split_at(front(bytes));
        if bytes.len() != self.width || !is_zero(rest) {
            return Err(Reason::NoPattern.plain());
        }
        if characters.is_empty() {
            return Ok(None);
        }
        Ok(Some(Value::text(characters)))
    }

    // Whether a field can hold the text: at least one character, at most the width, and nothing else.
    fn holds(self, s: &[u8]) -> bool
        ensures value { result ≡ holds self.width s.now }
        ensures fits { result ≡ true → length s.now ≤ self.width }
    {
        (1..=self.width).contains(&s.len()) && front(s) == s.len()
    }

    // The pattern of a value; only a text has one.
    pub(crate) fn write(self, value: Value<'_>) -> Result<Pattern, Refusal>
        ensures { patterned result ≡ pattern_of (Some (text_kind self.width)) (meaning value.entry) }
    {
        match value {
            Value::Text(characters) if self.holds(characters) => Ok(self.padded(characters)),
            _ => Err(Reason::NoSuchValue.plain()),
        }
    }
}

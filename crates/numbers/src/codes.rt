// One byte out of a list of codes.
ghost use Rattle.std.specs.Prelude.{◌≡◌, ◌<◌, true, Some};
ghost use Rattle.types.specs.Meanings.{meaning};
ghost use Rattle.types.specs.Patterns.{pattern_bytes};
ghost use Rattle.types.specs.Answers.{meant, patterned, read_of, pattern_of};
ghost use Rattle.numbers.specs.Codes.{rising_from, code_list, listed};
ghost use Rattle.numbers.specs.Kinds.{codes_kind};
ghost use Rattle.numbers.specs.Finding.{listing, codes_of};

use crate::numeric::Width;
use types::{Pattern, Value};
use wire::{Reason, Refusal};

// A list has at most so many codes.
const MOST_CODES: usize = 32;

// Whether the bytes are strictly rising.
fn is_rising(s: &[u8]) -> bool
    ensures { result ≡ rising_from 0 s.now }
{
    s.is_sorted_by(|low, high| low < high)
}

// Whether an argument is a list of codes.
fn is_code_list(argument: &[u8]) -> bool
    ensures { result ≡ code_list argument.now }
{
    (1..=MOST_CODES).contains(&argument.len()) && is_rising(argument)
}

// One out of a list of codes.
#[derive(Clone, Copy)]
pub(crate) struct Codes<'a> {
    pub list: &'a [u8],
}

impl<'a> Codes<'a> {
    // The codes of an argument, where it is a list of codes.
    pub(crate) fn of(argument: &'a [u8]) -> Option<Codes<'a>>
        ensures { listing result ≡ codes_of argument.now }
    {
        is_code_list(argument).then_some(Codes { list: argument })
    }

    // Whether a code is one of the list, which only a byte can be.
    fn is_listed(self, code: u64) -> bool
        ensures value { result ≡ listed code self.entry.list.now }
        ensures byte { result ≡ true → code < 256 }
    {
        self.list.iter().any(|b| *b as u64 == code)
    }

    // The pattern that a cleared field holds, whatever the codes.
    pub(crate) fn blank(self) -> Pattern
        ensures { pattern_bytes result ≡ (codes_kind self.entry.list.now).blank }
    {
        Width::One.stored(0)
    }

    // What the bytes mean; 00 means absent unless it is listed.
    pub(crate) fn read<'b>(self, bytes: &[u8]) -> Result<Option<Value<'b>>, Refusal>
        ensures { meant result ≡ read_of (Some (codes_kind self.entry.list.now)) bytes.now }
    {
        match bytes {
            [code] if self.is_listed(*code as u64) => Ok(Some(Value::unsigned(*code as u64))),
            [0] => Ok(None),
            _ => Err(Reason::NoPattern.plain()),
        }
    }

    // The pattern of a value, where it is a listed code.
    pub(crate) fn write(self, value: Value<'_>) -> Result<Pattern, Refusal>
        ensures { patterned result ≡ pattern_of (Some (codes_kind self.entry.list.now)) (meaning value.entry) }
    {
        match value {
            Value::Unsigned(n) if self.is_listed(n) => Ok(Width::One.stored(n)),
            _ => Err(Reason::NoSuchValue.plain()),
        }
    }
}

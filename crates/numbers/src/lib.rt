// The library of the number types: unsigned, signed, decimal, and one out of a list of codes.
#![tactic(auto)]

ghost use Rattle.std.specs.Prelude.{◌≡◌, Some};
ghost use Rattle.std.specs.Option.{option_map};
ghost use Rattle.types.specs.Meanings.{meaning};
ghost use Rattle.types.specs.Patterns.{pattern_bytes};
ghost use Rattle.types.specs.Answers.{meant, patterned, read_of, pattern_of, Finds};
ghost use Rattle.numbers.specs.Types.{number_kinds, is_number_type};
ghost use Rattle.numbers.specs.Finding.{kind_found};
ghost use Rattle.numbers.specs.Lawfulness.{numbers_lawful};

mod bits;
mod codes;
mod numeric;
mod storage;

use codes::Codes;
use numeric::{Numeric, numeric_of};
use types::{Pattern, TypeLibrary, Value};
use wire::{Reason, Refusal};

// The number of the types that are one out of a list of codes.
const CODES: u8 = 7;

// What a number and an argument name: one out of a list of codes, or a type of numbers.
#[derive(Clone, Copy)]
enum Found<'a> {
    Codes(Codes<'a>),
    Number(Numeric),
}

impl<'a> Found<'a> {
    // The width of the patterns.
    fn width(self) -> usize
        ensures { result ≡ (kind_found self.entry).width }
    {
        match self {
            Found::Codes(_) => 1,
            Found::Number(t) => t.width.bytes(),
        }
    }

    // The pattern that a cleared field holds.
    fn blank(self) -> Pattern
        ensures { pattern_bytes result ≡ (kind_found self.entry).blank }
    {
        match self {
            Found::Codes(codes) => codes.blank(),
            Found::Number(t) => t.blank(),
        }
    }

    // What the bytes mean.
    fn read<'b>(self, bytes: &[u8]) -> Result<Option<Value<'b>>, Refusal>
        ensures { meant result ≡ read_of (Some (kind_found self.entry)) bytes.now }
    {
        match self {
            Found::Codes(codes) => codes.read(bytes),
            Found::Number(t) => t.read(bytes),
        }
    }

    // The pattern of a value.
    fn write(self, value: Value<'_>) -> Result<Pattern, Refusal>
        ensures { patterned result ≡ pattern_of (Some (kind_found self.entry)) (meaning value.entry) }
    {
        match self {
            Found::Codes(codes) => codes.write(value),
            Found::Number(t) => t.write(value),
        }
    }
}

// What the number and the argument name, where they name a type.
fn named(number: u8, argument: &[u8]) -> Option<Found<'_>>
    ensures { option_map kind_found result ≡ number_kinds number argument.now }
{
    if number == CODES {
        return Some(Found::Codes(Codes::of(argument)?));
    }
    Some(Found::Number(numeric_of(number, argument)?))
}

// The same, refused where they name no type.
fn find(number: u8, argument: &[u8]) -> Result<Found<'_>, Refusal>
    ensures { Finds kind_found (number_kinds number argument.now) result }
{
    named(number, argument).ok_or(Reason::UnknownType.plain())
}

// The library of the number types.
#[derive(Clone, Copy)]
pub struct Numbers;

impl TypeLibrary for Numbers {
    ghost known = { λ _. number_kinds };

    ghost lawful = { λ l. numbers_lawful };

    fn width(&self, number: u8, argument: &[u8]) -> Result<usize, Refusal> {
        Ok(find(number, argument)?.width())
    }

    fn blank(&self, number: u8, argument: &[u8]) -> Result<Pattern, Refusal> {
        Ok(find(number, argument)?.blank())
    }

    fn read<'a>(
        &self,
        number: u8,
        argument: &[u8],
        bytes: &'a [u8],
    ) -> Result<Option<Value<'a>>, Refusal> {
        find(number, argument)?.read(bytes)
    }

    fn write(&self, number: u8, argument: &[u8], value: Value<'_>) -> Result<Pattern, Refusal> {
        find(number, argument)?.write(value)
    }
}

impl Numbers {
    // Whether the number and the argument name a type.
    // It says by its own words which types: one method of the interface would say only that something is known.
    pub fn knows(&self, number: u8, argument: &[u8]) -> bool
        ensures { result ≡ is_number_type number argument.now }
    {
        self.width(number, argument).is_ok()
    }
}

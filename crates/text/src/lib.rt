// The library of text and investors.
#![tactic(auto)]

ghost use Rattle.std.specs.Prelude.{◌≡◌, Some};
ghost use Rattle.types.specs.Meanings.{meaning};
ghost use Rattle.types.specs.Answers.{meant, patterned, read_of, pattern_of, Finds};
ghost use Rattle.types.specs.Patterns.{pattern_bytes};
ghost use Rattle.text.specs.Known.{text_kinds, knows_of, kind_of};
ghost use Rattle.text.specs.AllLaws.{all_lawful};

mod characters;
mod investor;
mod shape;
mod written;

use investor::{INVESTOR_WIDTH, read_investor, write_investor};
use shape::{Shape, Text};
use types::{Pattern, TypeLibrary, Value};
use wire::{Reason, Refusal};
use written::WIDEST;

// The number of text.
const TEXT: u8 = 65;

// The number of an investor.
const INVESTOR: u8 = 66;

impl Shape {
    // The width of the patterns.
    fn width(self) -> usize
        ensures { result ≡ (kind_of self).width }
    {
        match self {
            Shape::Text(text) => text.width,
            Shape::Investor => INVESTOR_WIDTH,
        }
    }

    // The pattern that a cleared field holds.
    fn blank(self) -> Pattern
        ensures { pattern_bytes result ≡ (kind_of self).blank }
    {
        match self {
            Shape::Text(text) => text.blank(),
            Shape::Investor => Pattern::of(&[0; INVESTOR_WIDTH]),
        }
    }

    // What the bytes mean.
    fn read<'a>(self, bytes: &'a [u8]) -> Result<Option<Value<'a>>, Refusal>
        ensures { meant result ≡ read_of (Some (kind_of self)) bytes.now }
    {
        match self {
            Shape::Text(text) => text.read(bytes),
            Shape::Investor => read_investor(bytes),
        }
    }

    // The pattern of a value.
    fn write(self, value: Value<'_>) -> Result<Pattern, Refusal>
        ensures { patterned result ≡ pattern_of (Some (kind_of self)) (meaning value.entry) }
    {
        match self {
            Shape::Text(text) => text.write(value),
            Shape::Investor => write_investor(value),
        }
    }
}

// The type of this number and argument; refused where they name none.
fn find(number: u8, argument: &[u8]) -> Result<Shape, Refusal>
    ensures { Finds kind_of (text_kinds number argument.now) result }
{
    match (number, argument) {
        (TEXT, [width @ 1..=WIDEST]) => Ok(Shape::Text(Text {
            width: *width as usize,
        })),
        (INVESTOR, []) => Ok(Shape::Investor),
        _ => Err(Reason::UnknownType.plain()),
    }
}

// Text (65) and investors (66).
#[derive(Clone, Copy)]
pub struct Texts;

impl Texts {
    // Whether the library knows this type.
    // It says by its own words which types: one method of the interface would say only that something is known.
    pub fn knows(&self, number: u8, argument: &[u8]) -> bool
        ensures { result ≡ knows_of number argument.now }
    {
        self.width(number, argument).is_ok()
    }
}

// The methods read as those of the other library do. One impl over what `find` finds would take a second interface, no plainer for two.
impl TypeLibrary for Texts {
    ghost known = { λ _. text_kinds };

    ghost lawful = { λ l. all_lawful };

    fn width(&self, number: u8, argument: &[u8]) -> Result<usize, Refusal> {
        Ok(find(number, argument)?.width())
    }

    fn blank(&self, number: u8, argument: &[u8]) -> Result<Pattern, Refusal> {
        Ok(find(number, argument)?.blank())
    }

    fn read<'a>(
        &self,
        number: u8,
        argument: &[u8],
        bytes: &'a [u8],
    ) -> Result<Option<Value<'a>>, Refusal> {
        find(number, argument)?.read(bytes)
    }

    fn write(&self, number: u8, argument: &[u8], value: Value<'_>) -> Result<Pattern, Refusal> {
        find(number, argument)?.write(value)
    }
}

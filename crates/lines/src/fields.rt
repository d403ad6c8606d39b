// The fields of a block, as they are seen at a version.
ghost use Rattle.std.specs.Prelude.{◌≡◌};
ghost use Rattle.schema.specs.Seen.{length_at};
ghost use Rattle.lines.specs.Held.{fields_in};

use dictionary::{FieldLine, Line, Lines, seen_field};
use wire::tail;

// The fields of a block that are still to come.
#[derive(Clone, Copy)]
pub struct Fields<'a> {
    pub rest: &'a [u8],
}

impl<'a> Fields<'a> {
    // The fields that the lines begin with.
    pub fn of(lines: &'a [u8]) -> Fields<'a>
        ensures { result.rest.now ≡ lines.now }
    {
        Fields { rest: lines }
    }
}

impl<'a> Iterator for Fields<'a> {
    ghost use Rattle.std.specs.Iterator.{item_count};
    ghost use Rattle.lines.specs.Walks.{fields_left, GivesField};

    type Item = FieldLine<'a>;

    ghost next_gives = { GivesField };

    ghost remaining = { item_count fields_left };

    fn next(&mut self) -> Option<FieldLine<'a>> {
        let mut lines = Lines::of(self.rest);
        match lines.next() {
            Some(Line::Field(field)) => {
                self.rest = lines.rest;
                Some(field)
            }
            _ => None,
        }
    }
}

// Those of them that are not newer than the version.
#[derive(Clone, Copy)]
pub struct SeenFields<'a> {
    pub version: u16,
    pub fields: Fields<'a>,
}

impl<'a> SeenFields<'a> {
    // The fields that the lines begin with, as far as they are seen at the version.
    pub fn of(version: u16, lines: &'a [u8]) -> SeenFields<'a>
        ensures version { result.version ≡ version }
        ensures bytes { result.fields.rest.now ≡ lines.now }
    {
        SeenFields {
            version,
            fields: Fields::of(lines),
        }
    }
}

impl<'a> Iterator for SeenFields<'a> {
    ghost use Rattle.std.specs.Iterator.{item_count};
    ghost use Rattle.lines.specs.Walks.{seen_fields_left, GivesSeenField};

    type Item = FieldLine<'a>;

    ghost next_gives = { GivesSeenField };

    ghost remaining = { item_count seen_fields_left };

    fn next(&mut self) -> Option<FieldLine<'a>> {
        let field = seen_field(self.fields.rest, self.version)?;
        self.fields.rest = tail(self.fields.rest, Line::Field(field).size());
        Some(field)
    }
}

// A block's length at v: where its first field newer than v stands, or else the declared length.
pub fn length_at(v: u16, size: u16, lines: &[u8]) -> u16
    ensures { result ≡ length_at v size (fields_in lines.now) }
{
    Fields::of(lines)
        .find(|f| f.since > v)
        .map_or(size, |f| f.offset)
}

// The templates of a dictionary, one after the other.
ghost use Rattle.std.specs.Prelude.{◌≡◌};

use crate::section::{Section, first_section};
use wire::tail;

// The templates that are still to come. Where the bytes go on with no template, they are left as they are.
// The same walk as over lines. One walk for both would take a trait with laws for what bytes begin with and how long it is, which is no plainer for two types.
#[derive(Clone, Copy)]
pub struct Sections<'a> {
    pub rest: &'a [u8],
}

impl<'a> Sections<'a> {
    // The templates that the bytes hold, as far as they are templates.
    pub fn of(bytes: &'a [u8]) -> Sections<'a>
        ensures { result.rest.now ≡ bytes.now }
    {
        Sections { rest: bytes }
    }
}

impl<'a> Iterator for Sections<'a> {
    ghost use Rattle.std.specs.Iterator.{item_count};
    ghost use Rattle.dictionary.specs.Walks.{sections_left, GivesSection};

    type Item = Section<'a>;

    ghost next_gives = { GivesSection };

    ghost remaining = { item_count sections_left };

    fn next(&mut self) -> Option<Section<'a>> {
        let section = first_section(self.rest)?;
        self.rest = tail(self.rest, section.bytes());
        Some(section)
    }
}

// The templates of a dictionary, each with the place where it begins.
ghost use Rattle.std.specs.Prelude.{◌≡◌, ◌+◌, ◌^◌, ◌<◌, length};

use crate::found::Found;
use crate::sections::Sections;

// The templates that are still to come, and the place where they begin.
#[derive(Clone, Copy)]
pub struct PlacedSections<'a> {
    pub place: usize,
    pub sections: Sections<'a>,
    pub ghost within: { place + length sections.rest.now < 2 ^ 63 },
}

impl<'a> PlacedSections<'a> {
    // The templates that the bytes hold, from a place on.
    pub fn of(place: usize, bytes: &'a [u8]) -> PlacedSections<'a>
        requires { place + length bytes.now < 2 ^ 63 }
        ensures place { result.place ≡ place }
        ensures bytes { result.sections.rest.now ≡ bytes.now }
    {
        PlacedSections {
            place,
            sections: Sections::of(bytes),
        }
    }
}

impl<'a> Iterator for PlacedSections<'a> {
    ghost use Rattle.std.specs.Iterator.{item_count};
    ghost use Rattle.dictionary.specs.Placed.{placed_left, GivesFound};

    type Item = Found<'a>;

    ghost next_gives = { GivesFound };

    ghost remaining = { item_count placed_left };

    fn next(&mut self) -> Option<Found<'a>> {
        let place = self.place;
        let section = self.sections.next()?;
        self.place = place + section.bytes();
        Some(Found { place, section })
    }
}

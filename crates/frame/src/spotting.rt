// Where in a frame what is read lies, by group, entry and tag.
ghost use Rattle.std.specs.Prelude.{◌≡◌};
ghost use Rattle.message.specs.Spots.{frame_spot};
ghost use Rattle.frame.specs.Holding.{shown_held};
ghost use Rattle.frame.specs.Spotting.{spot_of, spots};

use crate::accepted::Frame;
use crate::held::Held;
use judging::width_of;
use types::TypeLibrary;
use wire::Refusal;

// Where a part begins and how many bytes it has. Both are 0 where there is no part: the C interface takes the numbers, and an Option would be undone there.
#[derive(Clone, Copy)]
pub struct Spot {
    pub place: usize,
    pub length: usize,
}

impl<'d> Held<'d> {
    // Where it lies.
    fn spot<L: TypeLibrary>(self, library: &L) -> Spot
        ensures { result ≡ spot_of (L.known library.now) (shown_held self.entry) }
    {
        match self {
            Held::Field { place, field } => Spot {
                place,
                length: width_of(library, field),
            },
            Held::Data { place, length } => Spot { place, length },
            Held::NewerField | Held::NewerData => Spot {
                place: 0,
                length: 0,
            },
        }
    }
}

impl<'a> Frame<'a> {
    // Where in the frame what is read at a group, an entry and a tag lies: a field's bytes, or what a data holds. A rule of the project: group, entry and tag are given one by one.
    pub fn spot<L: TypeLibrary>(
        &self,
        library: &L,
        group: u32,
        entry: usize,
        tag: u32,
    ) -> Result<Spot, Refusal>
        ensures { result ≡ spots (L.known library.now) (frame_spot (L.known library.now) self.now.dictionary.now self.now.bytes.now group entry tag) }
    {
        let held = self.held(library, group, entry, tag)?;
        Ok(held.spot(library))
    }
}

// A template that was found in a dictionary.
ghost use Rattle.std.specs.Prelude.{◌≡◌, ◌+◌, ◌^◌, ◌<◌, length};
ghost use Rattle.schema.specs.Geometry.{section_geometry};
ghost use Rattle.dictionary.specs.Shown.{shown_section};

use crate::section::Section;
use types::TypeLibrary;
use wire::Refusal;

// A template and the place in the dictionary where it begins.
#[derive(Clone, Copy)]
pub struct Found<'a> {
    pub place: usize,
    pub section: Section<'a>,
    pub ghost within: { place + 8 + length section.body.now < 2 ^ 63 },
}

impl<'a> Found<'a> {
    // Types and geometry of the template, where it stands: its head, then its lines.
    pub fn check_geometry<L: TypeLibrary>(self, library: &L, version: u16) -> Result<(), Refusal>
        ensures { result ≡ section_geometry (L.known library.now) version self.entry.place (shown_section self.entry.section) }
    {
        self.section.check_geometry(library, version, self.place)
    }
}

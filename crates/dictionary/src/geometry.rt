// Types and geometry: that each type is known and each field has its place.
ghost use Rattle.std.specs.Prelude.{◌≡◌, ◌+◌, ◌^◌, ◌<◌, ◌≤◌, ◌&&◌, length};
ghost use Rattle.schema.specs.Structure.{Field};
ghost use Rattle.schema.specs.Lines.{field};
ghost use Rattle.schema.specs.Sections.{sections};
ghost use Rattle.schema.specs.Geometry.{block_fits, since_fits, line_verdict, section_geometry, sections_geometry, lines_geometry};
ghost use Rattle.schema.specs.Lines.{lines, there};
ghost use Rattle.dictionary.specs.Shown.{shown_line, shown_field, shown_section};
ghost use Rattle.dictionary.specs.Steps.{line_ground, data_ground, shown_ground, grounded, longest_within, placed};

use crate::line::{FieldLine, Line};
use crate::lines::Lines;
use crate::placed::PlacedSections;
use crate::section::Section;
use types::TypeLibrary;
use wire::{Reason, Refusal, located};

// The longest block, and the longest that a data may be.
const LONGEST_BLOCK: u16 = 16372;

const LONGEST_DATA: u8 = 254;

// What lies above a line: the length of the block that stands open, where the field above ends and its since, and the since of the data above.
#[derive(Clone, Copy)]
pub struct Ground {
    size: u16,
    taken: usize,
    since: u16,
    part_since: u16,
}

fn is_block_length(size: u16) -> bool
    ensures { result ≡ block_fits size }
{
    size <= LONGEST_BLOCK
}

// A since does not fall, and is not above the dictionary's version.
fn is_since(version: u16, before: u16, since: u16) -> bool
    ensures { result ≡ since_fits version before since }
{
    before <= since && since <= version
}

fn is_longest(longest: u8) -> bool
    ensures { result ≡ longest_within longest }
{
    1 <= longest && longest <= LONGEST_DATA
}

impl Ground {
    // The ground of a block's first field.
    fn block(size: u16, part_since: u16) -> Ground
        ensures { result ≡ record { size = size; taken = 0; since = 0; part_since = part_since } }
    {
        Ground {
            size,
            taken: 0,
            since: 0,
            part_since,
        }
    }

    // A field begins where the one above ends or behind it, and ends within its block.
    fn holds(self, version: u16, offset: u16, end: usize, since: u16) -> bool
        ensures { result ≡ placed version (grounded self) offset end since }
    {
        self.taken <= usize::from(offset)
            && end <= usize::from(self.size)
            && is_since(version, self.since, since)
    }

    // A data at a place: its longest is one, and its since fits.
    fn past_data(
        self,
        version: u16,
        place: usize,
        tag: u32,
        since: u16,
        longest: u8,
    ) -> Result<Ground, Refusal>
        ensures { shown_ground result ≡ data_ground version (grounded self) place tag since longest }
    {
        if !is_longest(longest) {
            return Err(Reason::UnknownType.at(place, tag));
        }
        if !is_since(version, self.part_since, since) {
            return Err(Reason::LineGeometry.at(place, tag));
        }
        Ok(Ground {
            part_since: since,
            ..self
        })
    }
}

// What types and geometry are checked by: the types that are known, and the dictionary's version.
#[derive_where(Clone, Copy)]
pub struct Geometry<'a, L> {
    pub library: &'a L,
    pub version: u16,
}

impl<'a, L: TypeLibrary> Geometry<'a, L> {
    // The ground behind a field at a place: its type is known, and it has its place in the block.
    fn past_field(&self, above: Ground, place: usize, f: FieldLine<'_>) -> Result<Ground, Refusal>
        ensures { shown_ground result ≡ line_ground (L.known self.now.library.now) self.now.version (grounded above) place (field (shown_field f.entry)) }
    {
        let width = located(self.library.width(f.number, f.argument), place, f.tag)?;
        if f.presence > 1 {
            return Err(Reason::UnknownType.at(place, f.tag));
        }
        let end = usize::from(f.offset) + width;
        if !above.holds(self.version, f.offset, end, f.since) {
            return Err(Reason::LineGeometry.at(place, f.tag));
        }
        Ok(Ground {
            taken: end,
            since: f.since,
            ..above
        })
    }

    // The ground behind a line at a place.
    fn past(&self, above: Ground, place: usize, line: Line<'_>) -> Result<Ground, Refusal>
        ensures { shown_ground result ≡ line_ground (L.known self.now.library.now) self.now.version (grounded above) place (shown_line line.entry) }
    {
        match line {
            Line::Field(f) => self.past_field(above, place, f),
            Line::Group { size, .. } if is_block_length(size) => {
                Ok(Ground::block(size, above.part_since))
            }
            Line::Group { tag, .. } => Err(Reason::LineGeometry.at(place, tag)),
            Line::End => Ok(above),
            Line::Data {
                tag,
                since,
                longest,
            } => above.past_data(self.version, place, tag, since, longest),
        }
    }

    // The lines of a template, from a place on: each type known, each field in its place.
    fn check_lines(&self, ground: Ground, body: &[u8], place: usize) -> Result<(), Refusal>
        requires { place + length body.now < 2 ^ 63 }
        ensures { result ≡ lines_geometry (L.known self.now.library.now) self.now.version (grounded ground) place (there (lines body.now)) }
    {
        let mut above = ground;
        let mut at = place;
        for line in Lines::of(body) {
            above = self.past(above, at, line)?;
            at += line.size();
        }
        Ok(())
    }

    // A template at a place of its dictionary: its head, then its lines.
    fn check_section(&self, section: Section<'_>, place: usize) -> Result<(), Refusal>
        requires { place + 8 + length section.body.now < 2 ^ 63 }
        ensures { result ≡ section_geometry (L.known self.now.library.now) self.now.version place (shown_section section.entry) }
    {
        if section.since > self.version || !is_block_length(section.size) {
            return Err(Reason::LineGeometry.at(place, 0));
        }
        self.check_lines(Ground::block(section.size, 0), section.body, place + 8)
    }

    // All templates; they begin at place 7.
    pub fn check_sections(&self, templates: &[u8]) -> Result<(), Refusal>
        requires { length templates.now < 2 ^ 62 }
        ensures { result ≡ sections_geometry (L.known self.now.library.now) self.now.version 7 (there (sections templates.now)) }
    {
        for found in PlacedSections::of(7, templates) {
            self.check_section(found.section, found.place)?;
        }
        Ok(())
    }
}

impl<'a> Section<'a> {
    // Types and geometry of a template at a place of its dictionary: its head, then its lines.
    pub fn check_geometry<L: TypeLibrary>(
        self,
        library: &L,
        version: u16,
        place: usize,
    ) -> Result<(), Refusal>
        requires { place + 8 + length self.body.now < 2 ^ 63 }
        ensures { result ≡ section_geometry (L.known library.now) version place (shown_section self.entry) }
    {
        Geometry { library, version }.check_section(self, place)
    }
}

// The templates of a dictionary: a head of eight bytes, and lines.
ghost use Rattle.std.specs.Prelude.{◌≡◌, ◌+◌, ◌^◌, ◌<◌, length};
ghost use Rattle.schema.specs.Sections.{first_section, sections, section_size};
ghost use Rattle.schema.specs.Shape.{sections_shape};
ghost use Rattle.dictionary.specs.Shown.{shown_section, shown_first_section};
ghost use Rattle.dictionary.specs.Steps.{section_shape};

use crate::line::number_at;
use crate::sections::Sections;
use crate::shape::check_lines;
use wire::{Reason, Refusal, part, tail};

// A template's head, and the bytes of its lines.
#[derive(Clone, Copy, PartialEq, Eq)]
pub struct Section<'a> {
    pub number: u16,
    pub since: u16,
    pub size: u16,
    pub body: &'a [u8],
}

// The template that the bytes begin with, or None where they begin with none.
pub fn first_section(s: &[u8]) -> Option<Section<'_>>
    ensures { shown_first_section result ≡ first_section s.now }
{
    if s.len() < 8 {
        return None;
    }
    let n = number_at::<2>(s, 0) as usize;
    if n < 8 || s.len() < n {
        return None;
    }
    let all = part(s, 0, n);
    Some(Section {
        number: number_at::<2>(all, 2) as u16,
        since: number_at::<2>(all, 4) as u16,
        size: number_at::<2>(all, 6) as u16,
        body: tail(all, 8),
    })
}

impl<'a> Section<'a> {
    // How many bytes the template has.
    pub fn bytes(self) -> usize
        ensures { result ≡ section_size (shown_section self.entry) }
    {
        8 + self.body.len()
    }

    // A number not below the least that may come, and then the lines.
    fn check_shape(self, least: u32, place: usize) -> Result<(), Refusal>
        requires { place + 8 + length self.body.now < 2 ^ 63 }
        ensures { result ≡ section_shape least place (shown_section self.entry) }
    {
        if u32::from(self.number) < least {
            return Err(Reason::LineName.at(place, 0));
        }
        check_lines(self.body, place + 8)
    }
}

// Shape and names of all templates; they begin at place 7.
pub fn check_sections(templates: &[u8]) -> Result<(), Refusal>
    requires { length templates.now < 2 ^ 62 }
    ensures { result ≡ sections_shape 0 7 (sections templates.now) }
{
    // What the walk leaves tells whether the next template is broken, so the walk is kept beside the loop.
    let mut sections = Sections::of(templates);
    let mut place = 7;
    let mut least = 0;
    while let Some(section) = sections.next() {
        section.check_shape(least, place)?;
        least = u32::from(section.number) + 1;
        place += section.bytes();
    }
    if sections.rest.is_empty() {
        Ok(())
    } else {
        Err(Reason::LineShape.at(place, 0))
    }
}

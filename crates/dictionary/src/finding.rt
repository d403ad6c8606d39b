// The template of a number, found in a dictionary's bytes.
ghost use Rattle.std.specs.Prelude.{◌≡◌, ◌&&◌, length, ◌==◌, nat_le};
ghost use Rattle.schema.specs.Reading.{sections_of, dictionary_of};
ghost use Rattle.schema.specs.Finding.{section_at, seen_of};
ghost use Rattle.schema.specs.Seen.{template_at};
ghost use Rattle.dictionary.specs.Found.{shown_found, FoundWithin};

use crate::found::Found;
use crate::placed::PlacedSections;
use crate::section::Section;
use wire::beyond;

// Whether a template has the number and is there at the version.
fn is_wanted(section: Section<'_>, number: u16, version: u16) -> bool
    ensures { result ≡ (nat_le section.entry.since version && section.entry.number == number) }
{
    section.since <= version && section.number == number
}

// The first template of a number that is there at a version.
pub fn find(dictionary: &[u8], number: u16, version: u16) -> Option<Found<'_>>
    ensures value { shown_found result ≡ section_at number version 7 (sections_of dictionary.now) }
    ensures template { seen_of version (shown_found result) ≡ template_at (dictionary_of dictionary.now) number version }
    ensures within { FoundWithin result (length dictionary.now) }
{
    PlacedSections::of(7, beyond(dictionary, 7)).find(|f| is_wanted(f.section, number, version))
}

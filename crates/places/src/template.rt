// Where the bytes of a frame have what a template tells of, by its lines as they are seen at the version u.
ghost use Rattle.std.specs.Prelude.{◌≡◌, ◌+◌, ◌^◌, ◌≤◌};
ghost use Rattle.schema.specs.Reading.{template_of};
ghost use Rattle.dictionary.specs.Shown.{shown_section};
ghost use Rattle.places.specs.Places.{entry_field_at, field_place, group_place, part_place, blank_needed};
ghost use Rattle.places.specs.Shown.{shown_group, shown_field_place, shown_group_place, shown_part_place, NearField, NearGroup, NearPart};

use crate::blank::{heads_length, prefixes_length};
use crate::fields::field_at;
use crate::groups::{GroupPlaces, HEADER, first_group};
use crate::parts::part_at;
use crate::place::{FieldPlace, GroupPlace, PartPlace};
use crate::refusing::no_such;
use dictionary::Section;
use wire::Refusal;

// The field of an entry: behind the group's head and the entries before.
fn entry_field<'a>(
    u: u16,
    found: GroupPlace<'a>,
    group: u32,
    entry: usize,
    tag: u32,
) -> Result<FieldPlace<'a>, Refusal>
    ensures { shown_field_place result ≡ entry_field_at group entry tag (shown_group u found.entry) }
{
    if entry >= found.count {
        return Err(no_such(group));
    }
    let base = found.place + 3 + entry * found.size;
    field_at(u, base, found.lines, tag)
}

// Version, bytes and template stay parameters: each caller looks up one place, and then writes to the buffer that the bytes are cut from, so a struct of the three would be made anew for each single call.

// A field by group, entry and tag: the root is group 0, with the one entry 0.
pub fn field_place<'a>(
    u: u16,
    bytes: &[u8],
    section: Section<'a>,
    group: u32,
    entry: usize,
    tag: u32,
) -> Result<FieldPlace<'a>, Refusal>
    ensures value { shown_field_place result ≡ field_place u bytes.now (template_of (shown_section section.entry)) group entry tag }
    ensures near { NearField result }
{
    if group != 0 {
        let found = group_place(u, bytes, section, group)?;
        return entry_field(u, found, group, entry, tag);
    }
    if entry != 0 {
        return Err(no_such(0));
    }
    field_at(u, HEADER, section.body, tag)
}

// A group by its tag.
pub fn group_place<'a>(
    u: u16,
    bytes: &[u8],
    section: Section<'a>,
    tag: u32,
) -> Result<GroupPlace<'a>, Refusal>
    ensures value { shown_group_place u result ≡ group_place u bytes.now (template_of (shown_section section.entry)) tag }
    ensures near { NearGroup result }
{
    GroupPlaces::of(u, bytes, section)
        .find(|g| g.tag == tag)
        .ok_or(no_such(tag))
}

// A data by its tag.
pub fn part_place(
    u: u16,
    bytes: &[u8],
    section: Section<'_>,
    tag: u32,
) -> Result<PartPlace, Refusal>
    ensures value { shown_part_place result ≡ part_place u bytes.now (template_of (shown_section section.entry)) tag }
    ensures near { NearPart result }
{
    let behind = GroupPlaces::of(u, bytes, section).end();
    part_at(u, bytes, behind, section.body, tag)
}

// How many bytes the frame of a blank form takes: it has no entries, and its data are empty.
pub fn blank_length(u: u16, section: Section<'_>) -> usize
    ensures { result ≡ blank_needed u (template_of (shown_section section.entry)) }
{
    first_group(u, section) + heads_length(section.body) + prefixes_length(u, section.body)
}

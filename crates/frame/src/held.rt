// What a frame holds at a group, an entry and a tag, by the lines of its template.
ghost use Rattle.std.specs.Prelude.{◌≡◌, ◌==◌, ◌+◌, ◌^◌, ◌<◌, ◌≤◌, length, Err};
ghost use Rattle.std.specs.Option.{option_map};
ghost use Rattle.std.specs.List.{find};
ghost use Rattle.schema.specs.Reading.{template_of};
ghost use Rattle.dictionary.specs.Shown.{shown_field, shown_section};
ghost use Rattle.message.specs.Frames.{group_length};
ghost use Rattle.message.specs.Messages.{stated_root};
ghost use Rattle.message.specs.Lookup.{groups_end};
ghost use Rattle.message.specs.Spots.{spot_or, first_of, no_spot, field_spot, part_spot, entry_spot, group_spot, template_spot, frame_spot};
ghost use Rattle.lines.specs.Held.{fields_in, groups_in, parts_in};
ghost use Rattle.lines.specs.Walks.{data_at};
ghost use Rattle.frame.specs.Holding.{shown_held, shown_holding, spot_of_field, spot_of_part, part_end};

use crate::accepted::Frame;
use dictionary::{FieldLine, Section};
use judging::{content_length, entry_count, stated_at};
use lines::{Fields, Groups, PartLine, Parts};
use types::TypeLibrary;
use wire::{Reason, Refusal, beyond};

// A field with the place of its bytes, a data with the place of its content and how many bytes that has, or that the line is newer than the frame, which then has no bytes for it.
#[derive(Clone, Copy)]
pub(crate) enum Held<'d> {
    Field { place: usize, field: FieldLine<'d> },
    Data { place: usize, length: usize },
    NewerField,
    NewerData,
}

// The header of a frame is 12 bytes. A limit stands in each crate that holds to it, so that an edit of it proves that crate alone.
pub(crate) const HEADER: usize = 12;

// How long the group is that the bytes begin with: 3 where there are none.
pub(crate) fn group_length(bytes: &[u8]) -> usize
    ensures value { result ≡ group_length bytes.now }
    ensures most { result ≤ 16711428 }
    ensures none { length bytes.now ≡ 0 → result ≡ 3 }
{
    3 + entry_count(bytes) as usize * stated_at(bytes, 0) as usize
}

// There is no such group, entry or tag.
fn not_found(tag: u32) -> Refusal
    ensures { Err result ≡ no_spot tag }
{
    Reason::NotFound.at(0, tag)
}

// The first field with the tag, of those that the lines begin with.
fn find_field(lines: &[u8], tag: u32) -> Option<FieldLine<'_>>
    ensures { option_map shown_field result ≡ find (λ f. f.tag == tag) (fields_in lines.now) }
{
    Fields::of(lines).find(|f| f.tag == tag)
}

// The look-ups here and those by a template's places differ: a frame states how long its groups are, and a form's are as long as its template says.

// What is asked of a frame: its version and bytes, and a group, the index of an entry and a tag.
#[derive(Clone, Copy)]
struct Asked<'a> {
    version: u16,
    bytes: &'a [u8],
    group: u32,
    index: usize,
    tag: u32,
}

impl<'a> Asked<'a> {
    // Behind the header and the root block.
    fn behind_root(self) -> usize
        ensures value { result ≡ 12 + stated_root self.entry.bytes.now }
        ensures most { result ≤ 65547 }
    {
        HEADER + usize::from(stated_at(self.bytes, 4))
    }

    // A field of a block at `base`.
    fn field<'d>(self, base: usize, f: FieldLine<'d>) -> Held<'d>
        requires { base < 2 ^ 63 + 2 ^ 62 + 2 ^ 61 }
        ensures { shown_held result ≡ spot_of_field self.entry.version base (shown_field f.entry) }
    {
        if f.since > self.version {
            return Held::NewerField;
        }
        Held::Field {
            place: base + usize::from(f.offset),
            field: f,
        }
    }

    // What a block at `base` has at the tag, by the fields that the lines begin with.
    fn in_block<'d>(self, base: usize, lines: &'d [u8]) -> Result<Held<'d>, Refusal>
        requires { base < 2 ^ 63 + 2 ^ 62 + 2 ^ 61 }
        ensures { shown_holding result ≡ spot_or (field_spot self.entry.version self.entry.bytes.now base (fields_in lines.now) self.entry.tag) self.entry.tag }
    {
        let f = find_field(lines, self.tag).ok_or(not_found(self.tag))?;
        Ok(self.field(base, f))
    }

    // What the entry has at the tag, of a group at a place: behind the group's head and the entries before.
    fn in_entry<'d>(self, place: usize, lines: &'d [u8]) -> Result<Held<'d>, Refusal>
        requires { place < 2 ^ 63 + 2 ^ 62 }
        ensures { shown_holding result ≡ entry_spot self.entry.version self.entry.bytes.now place (fields_in lines.now) self.entry.group self.entry.index self.entry.tag }
    {
        let head = beyond(self.bytes, place);
        if self.index >= usize::from(entry_count(head)) {
            return Err(not_found(self.group));
        }
        let base = place + 3 + self.index * usize::from(stated_at(head, 0));
        self.in_block(base, lines)
    }

    // The group asked for, of groups that begin behind the root block.
    fn in_groups<'d>(self, lines: &'d [u8]) -> Result<Held<'d>, Refusal>
        ensures { shown_holding result ≡ group_spot self.entry.version self.entry.bytes.now (12 + stated_root self.entry.bytes.now) (groups_in lines.now) self.entry.group self.entry.index self.entry.tag }
    {
        let mut place = self.behind_root();
        for group in Groups::of(lines) {
            if group.tag == self.group {
                return self.in_entry(place, group.lines);
            }
            place += group_length(beyond(self.bytes, place));
        }
        Err(not_found(self.group))
    }

    // The place behind those groups. The same walk as to a group with a tag: an iterator of places for the two loops, of a few lines each, would be no shorter.
    fn groups_end(self, lines: &[u8]) -> usize
        ensures value { result ≡ groups_end self.entry.bytes.now (12 + stated_root self.entry.bytes.now) (groups_in lines.now) }
        ensures most { result ≤ 2 ^ 63 + 2 ^ 62 }
    {
        let mut place = self.behind_root();
        for _ in Groups::of(lines) {
            place += group_length(beyond(self.bytes, place));
        }
        place
    }

    // The data that begins at a place.
    fn data<'d>(self, place: usize, line: PartLine) -> Held<'d>
        requires { place < 2 ^ 63 + 2 ^ 62 + 2 ^ 61 }
        ensures { shown_held result ≡ spot_of_part self.entry.version self.entry.bytes.now place (data_at line) }
    {
        if line.since > self.version {
            return Held::NewerData;
        }
        Held::Data {
            place: place + 1,
            length: content_length(beyond(self.bytes, place)),
        }
    }

    // The place behind that data.
    fn data_end(self, place: usize, line: PartLine) -> usize
        requires { place < 2 ^ 63 + 2 ^ 62 + 2 ^ 61 }
        ensures value { result ≡ part_end self.entry.version self.entry.bytes.now place (data_at line) }
        ensures most { result ≤ place + 256 }
        ensures behind { length self.entry.bytes.now ≤ place → result ≤ place + 1 }
    {
        if line.since > self.version {
            return place;
        }
        place + (1 + content_length(beyond(self.bytes, place)))
    }

    // The data with the tag, behind the groups.
    fn in_parts<'d>(self, lines: &'d [u8]) -> Result<Held<'d>, Refusal>
        ensures { shown_holding result ≡ spot_or (part_spot self.entry.version self.entry.bytes.now (groups_end self.entry.bytes.now (12 + stated_root self.entry.bytes.now) (groups_in lines.now)) (parts_in lines.now) self.entry.tag) self.entry.tag }
    {
        let mut place = self.groups_end(lines);
        for line in Parts::of(lines) {
            if line.tag == self.tag {
                return Ok(self.data(place, line));
            }
            place = self.data_end(place, line);
        }
        Err(not_found(self.tag))
    }

    // What the root has at the tag: a field, or else a data.
    fn in_root<'d>(self, lines: &'d [u8]) -> Result<Held<'d>, Refusal>
        ensures { shown_holding result ≡ spot_or (first_of (field_spot self.entry.version self.entry.bytes.now 12 (fields_in lines.now) self.entry.tag) (part_spot self.entry.version self.entry.bytes.now (groups_end self.entry.bytes.now (12 + stated_root self.entry.bytes.now) (groups_in lines.now)) (parts_in lines.now) self.entry.tag)) self.entry.tag }
    {
        let Some(f) = find_field(lines, self.tag) else {
            return self.in_parts(lines);
        };
        Ok(self.field(HEADER, f))
    }

    // What the frame has there, by the lines of its template: the root is group 0, with the one entry 0.
    fn in_template<'d>(self, section: Section<'d>) -> Result<Held<'d>, Refusal>
        ensures { shown_holding result ≡ template_spot self.entry.version self.entry.bytes.now (template_of (shown_section section.entry)) self.entry.group self.entry.index self.entry.tag }
    {
        if self.group != 0 {
            return self.in_groups(section.body);
        }
        if self.index != 0 {
            return Err(not_found(0));
        }
        self.in_root(section.body)
    }
}

impl<'a> Frame<'a> {
    // What the frame holds at a group, an entry and a tag.
    pub(crate) fn held<L: TypeLibrary>(
        &self,
        library: &L,
        group: u32,
        entry: usize,
        tag: u32,
    ) -> Result<Held<'a>, Refusal>
        ensures { shown_holding result ≡ frame_spot (L.known library.now) self.now.dictionary.now self.now.bytes.now group entry tag }
    {
        let section = self.template(library)?.ok_or(not_found(group))?;
        let asked = Asked {
            version: self.version(),
            bytes: self.bytes,
            group,
            index: entry,
            tag,
        };
        asked.in_template(section)
    }
}

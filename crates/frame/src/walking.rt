// The walk over an accepted frame: its fields, groups and data, one by one in the order of the bytes.
ghost use Rattle.std.specs.Prelude.{◌≡◌, ◌+◌, ◌<◌, ◌≤◌, true, [], ◌∷◌, length, Some, None};
ghost use Rattle.schema.specs.Verdicts.{fine};
ghost use Rattle.schema.specs.Laws.{Checked};
ghost use Rattle.dictionary.specs.Shown.{shown_field};
ghost use Rattle.message.specs.Messages.{frame_verdict};
ghost use Rattle.message.specs.Walks.{frame_items};
ghost use Rattle.message.specs.Laws.{WalkedThrough};
ghost use Rattle.lines.specs.Walks.{seen_fields_left, groups_left, GivesGroup, GivesSeenPart};
ghost use Rattle.frame.specs.Spots.{shown_spot, spot_at, roomy, Stepped, field_item, group_item, part_item, shown_item, next_entry, no_entries, entered_by, past_part, first_of, rest_of};
ghost use Rattle.frame.specs.Walked.{remaining, all_remaining, WalksOver};

use crate::accepted::Frame;
use crate::held::{HEADER, group_length};
use dictionary::FieldLine;
use judging::{content_length, entry_count, entry_length, stated_at, width_of};
use lines::{GroupLine, Groups, PartLine, SeenFields, SeenParts};
use types::TypeLibrary;
use wire::{Refusal, beyond, seen, upto};

// The lines of a template have at most so many bytes.
const LONGEST_BODY: usize = 65535;

// More bytes than a group has, a head and at most 255 entries of at most 65,535 bytes, and more than a data has.
const ROOM_FOR_GROUP: usize = 33554432;

const ROOM_FOR_PART: usize = 1024;

// No walk over a frame comes to a place farther on.
const FAR: usize = 17592186044416;

// What a walk hands out: a field with its type by number and argument, a group with the number of its entries and the three bytes of its head, a data, and at last the end. `place` is where the bytes begin in the frame.
#[derive(Clone, Copy)]
pub enum Item<'a> {
    Field {
        place: usize,
        tag: u32,
        number: u8,
        argument: &'a [u8],
        bytes: &'a [u8],
    },
    Group {
        place: usize,
        tag: u32,
        count: u8,
        head: &'a [u8],
    },
    Data {
        place: usize,
        tag: u32,
        content: &'a [u8],
    },
    // A rule of the project: an item is one enum with the end as a case, and no Option of one.
    End,
}

// Where a walk stands, at a version of the frame.
#[derive(Clone, Copy)]
struct At<'a> {
    version: u16,
    // the fields still to come in the block at hand, and where that block begins
    left: SeenFields<'a>,
    base: usize,
    // of the group at hand: its fields, how long an entry is, how many are still to come, and where the next one begins
    fields: SeenFields<'a>,
    stride: usize,
    entries: usize,
    next: usize,
    // the groups still to come, and where the next group or data begins
    groups: Groups<'a>,
    place: usize,
    // the data still to come
    parts: SeenParts<'a>,
}

// An item, and where the walk stands behind it.
#[derive(Clone, Copy)]
struct Step<'a> {
    item: Item<'a>,
    at: At<'a>,
}

impl<'a> At<'a> {
    // Before the first field: `body` are the template's lines, and `place` is behind the root block.
    fn start(version: u16, body: &'a [u8], place: usize) -> At<'a>
        ensures { shown_spot result ≡ spot_at version body.now place }
    {
        At {
            version,
            left: SeenFields::of(version, body),
            base: HEADER,
            fields: SeenFields::of(version, body),
            stride: 0,
            entries: 0,
            next: 0,
            groups: Groups::of(body),
            place,
            parts: SeenParts::of(version, body),
        }
    }

    // Whether all places that the walk can still come to are near enough to be numbers: so they are wherever a walk over a frame stands.
    fn has_room(self) -> bool
        ensures { result ≡ roomy (shown_spot self.entry) }
    {
        let groups = self.groups.lines.rest.len();
        let parts = self.parts.parts.lines.rest.len();
        if LONGEST_BODY < groups || LONGEST_BODY < parts {
            return false;
        }
        if FAR - ROOM_FOR_GROUP * groups - ROOM_FOR_PART * parts < self.place {
            return false;
        }
        if FAR < self.base || LONGEST_BODY < self.stride || 255 < self.entries {
            return false;
        }
        self.next <= FAR - 65536 * self.entries
    }

    // In the next entry.
    fn next_entry(self) -> At<'a>
        requires room { roomy (shown_spot self) ≡ true }
        requires more { 0 < self.entries }
        ensures { shown_spot result ≡ next_entry (shown_spot self.entry) }
    {
        At {
            left: self.fields,
            base: self.next,
            entries: self.entries - 1,
            next: self.next + self.stride,
            ..self
        }
    }

    // With no more entries to come.
    fn without_entries(self) -> At<'a>
        ensures { shown_spot result ≡ no_entries (shown_spot self.entry) }
    {
        At { entries: 0, ..self }
    }

    // In the group that begins here, with those behind it still to come.
    fn entered(self, bytes: &[u8], group: GroupLine<'a>, behind: Groups<'a>) -> At<'a>
        requires { self.place ≤ 17592186044416 }
        ensures { shown_spot result ≡ entered_by bytes.now group.entry behind.entry (shown_spot self.entry) }
    {
        let rest = beyond(bytes, self.place);
        At {
            fields: SeenFields::of(self.version, group.lines),
            stride: entry_length(rest),
            entries: usize::from(entry_count(rest)),
            next: self.place + 3,
            groups: behind,
            place: self.place + group_length(rest),
            ..self
        }
    }

    // Behind the data that begins here, with those behind it still to come.
    fn past_part(self, bytes: &[u8], behind: SeenParts<'a>) -> At<'a>
        requires { self.place ≤ 17592186044416 }
        ensures { shown_spot result ≡ past_part bytes.now behind.entry (shown_spot self.entry) }
    {
        At {
            place: self.place + (1 + content_length(beyond(bytes, self.place))),
            parts: behind,
            ..self
        }
    }
}

// The item of a field in the block that begins at `base`.
fn field_item<'a, L: TypeLibrary>(
    library: &L,
    bytes: &'a [u8],
    base: usize,
    f: FieldLine<'a>,
) -> Item<'a>
    requires { base ≤ 17592186044416 }
    ensures { shown_item result ≡ Some (field_item (L.known library.now) bytes.now base (shown_field f.entry)) }
{
    let place = base + usize::from(f.offset);
    Item::Field {
        place,
        tag: f.tag,
        number: f.number,
        argument: f.argument,
        bytes: upto(beyond(bytes, place), width_of(library, f)),
    }
}

// The item of a group that begins at a place.
fn group_item(bytes: &[u8], place: usize, tag: u32) -> Item<'_>
    ensures { shown_item result ≡ Some (group_item bytes.now place tag) }
{
    let rest = beyond(bytes, place);
    Item::Group {
        place,
        tag,
        count: entry_count(rest),
        head: upto(rest, 3),
    }
}

// The item of a data that begins at a place: its content begins one byte on.
fn part_item(bytes: &[u8], place: usize, tag: u32) -> Item<'_>
    requires { place ≤ 17592186044416 }
    ensures { shown_item result ≡ Some (part_item bytes.now place tag) }
{
    let rest = beyond(bytes, place);
    Item::Data {
        place: place + 1,
        tag,
        content: upto(beyond(rest, 1), content_length(rest)),
    }
}

// A walk over a frame, with the library under which the frame was accepted.
#[derive(Drop)]
pub struct Walk<'a, L: TypeLibrary> {
    library: &'a L,
    bytes: &'a [u8],
    at: At<'a>,
}

impl<'a, L: TypeLibrary> Walk<'a, L> {
    // Each step is asked for where nothing is left of the block, the entries or the groups before: that holds where it begins and not where it ends, so a type that carried it would be made anew in each. Room is kept by each step, and `next` asks for it anew.

    // From where a walk stands: the field that comes next in the block at hand, with those behind it still to come.
    fn field_step(&self, at: At<'a>, f: FieldLine<'a>, left: SeenFields<'a>) -> Step<'a>
        requires room { roomy (shown_spot at) ≡ true }
        requires here { seen_fields_left at.left ≡ shown_field f ∷ seen_fields_left left }
        ensures { Stepped (L.known self.now.library.now) self.now.bytes.now (shown_spot at.entry) result }
    {
        Step {
            item: field_item(self.library, self.bytes, at.base, f),
            at: At { left, ..at },
        }
    }

    // The group that comes next, behind the last entry of the one before.
    fn group_step(&self, at: At<'a>, group: GroupLine<'a>, behind: Groups<'a>) -> Step<'a>
        requires room { roomy (shown_spot at) ≡ true }
        requires behind { seen_fields_left at.left ≡ [] }
        requires last { at.entries ≡ 0 }
        requires here { GivesGroup at.groups (Some group) behind }
        ensures { Stepped (L.known self.now.library.now) self.now.bytes.now (shown_spot at.entry) result }
    {
        seen(self.bytes);
        Step {
            item: group_item(self.bytes, at.place, group.tag),
            at: at.entered(self.bytes, group, behind),
        }
    }

    // The data that comes next, behind the last group.
    fn part_step(&self, at: At<'a>, part: PartLine, behind: SeenParts<'a>) -> Step<'a>
        requires room { roomy (shown_spot at) ≡ true }
        requires behind { seen_fields_left at.left ≡ [] }
        requires last { at.entries ≡ 0 }
        requires ended { groups_left at.groups ≡ [] }
        requires here { GivesSeenPart at.parts (Some part) behind }
        ensures { Stepped (L.known self.now.library.now) self.now.bytes.now (shown_spot at.entry) result }
    {
        seen(self.bytes);
        Step {
            item: part_item(self.bytes, at.place, part.tag),
            at: at.past_part(self.bytes, behind),
        }
    }

    // The next data, or the end.
    fn step_in_parts(&self, at: At<'a>) -> Step<'a>
        requires room { roomy (shown_spot at) ≡ true }
        requires behind { seen_fields_left at.left ≡ [] }
        requires last { at.entries ≡ 0 }
        requires ended { groups_left at.groups ≡ [] }
        ensures { Stepped (L.known self.now.library.now) self.now.bytes.now (shown_spot at.entry) result }
    {
        let mut parts = at.parts;
        match parts.next() {
            Some(part) => self.part_step(at, part, parts),
            None => Step {
                item: Item::End,
                at,
            },
        }
    }

    // The next group, or what follows the groups.
    fn step_in_groups(&self, at: At<'a>) -> Step<'a>
        requires room { roomy (shown_spot at) ≡ true }
        requires behind { seen_fields_left at.left ≡ [] }
        requires last { at.entries ≡ 0 }
        ensures { Stepped (L.known self.now.library.now) self.now.bytes.now (shown_spot at.entry) result }
    {
        let mut groups = at.groups;
        match groups.next() {
            Some(group) => self.group_step(at, group, groups),
            None => self.step_in_parts(at),
        }
    }

    // The first field of the next entry, or what follows the entries: where one entry has no fields, none has.
    fn step_in_entries(&self, at: At<'a>) -> Step<'a>
        requires room { roomy (shown_spot at) ≡ true }
        requires behind { seen_fields_left at.left ≡ [] }
        ensures { Stepped (L.known self.now.library.now) self.now.bytes.now (shown_spot at.entry) result }
    {
        if at.entries == 0 {
            return self.step_in_groups(at);
        }
        let mut fields = at.fields;
        match fields.next() {
            Some(f) => self.field_step(at.next_entry(), f, fields),
            None => self.step_in_groups(at.without_entries()),
        }
    }

    // The next item.
    fn next_step(&self, at: At<'a>) -> Step<'a>
        requires { roomy (shown_spot at) ≡ true }
        ensures { Stepped (L.known self.now.library.now) self.now.bytes.now (shown_spot at.entry) result }
    {
        let mut left = at.left;
        match left.next() {
            Some(f) => self.field_step(at, f, left),
            None => self.step_in_entries(at),
        }
    }

    // The next item, and the end for ever after the last.
    pub fn next(&mut self) -> Item<'a>
        ensures item { shown_item result ≡ first_of (remaining (L.known self.old.library.now) self.old) }
        ensures rest { remaining (L.known self.old.library.now) self.new ≡ rest_of (remaining (L.known self.old.library.now) self.old) }
        ensures library { self.new.library ≡ self.old.library }
        ensures frame { self.new.bytes ≡ self.old.bytes }
    {
        if !self.at.has_room() {
            return Item::End;
        }
        let step = self.next_step(self.at);
        self.at = step.at;
        step.item
    }
}

impl<'a> Frame<'a> {
    // A walk before its first item. Where the dictionary has no such template there is nothing to walk over.
    fn begin<L: TypeLibrary>(&self, library: &'a L) -> Result<Walk<'a, L>, Refusal>
        ensures items { all_remaining (L.known library.now) result ≡ frame_items (L.known library.now) self.now.dictionary.now self.now.bytes.now }
        ensures holds { WalksOver library.entry self.now.bytes result }
    {
        let body = self
            .template(library)?
            .map_or(upto(self.dictionary, 0), |section| section.body);
        let place = HEADER + stated_at(self.bytes, 4) as usize;
        Ok(Walk {
            library,
            bytes: self.bytes,
            at: At::start(self.version(), body, place),
        })
    }

    // A walk over the frame: its root fields, then each group with the fields of its entries, then the data, as the frame's version shows them.
    pub fn walk<L: TypeLibrary>(&self, library: &'a L) -> Result<Walk<'a, L>, Refusal>
        ensures items { all_remaining (L.known library.now) result ≡ frame_items (L.known library.now) self.now.dictionary.now self.now.bytes.now }
        ensures holds { WalksOver library.entry self.now.bytes result }
        ensures through { Checked (L.known library.now) self.now.dictionary.now → frame_verdict (L.known library.now) self.now.dictionary.now self.now.bytes.now ≡ fine → WalkedThrough (L.known library.now) self.now.dictionary.now self.now.bytes.now }
    {
        self.begin(library)
    }
}

// The groups of a frame.
ghost use Rattle.std.specs.Prelude.{◌≡◌, ◌+◌, ◌*◌, ◌^◌, ◌<◌, ◌≤◌, length};
ghost use Rattle.schema.specs.Reading.{template_of};
ghost use Rattle.schema.specs.Seen.{block_length};
ghost use Rattle.dictionary.specs.Shown.{shown_section};
ghost use Rattle.lines.specs.Walks.{group_at as group_by};
ghost use Rattle.places.specs.Shown.{group_from, shown_group};

use crate::place::GroupPlace;
use dictionary::Section;
use judging::entry_count;
use lines::{GroupLine, Groups, length_at};
use wire::beyond;

// The header of a frame is 12 bytes. A limit stands in each crate that holds to it, so that an edit of it proves that crate alone.
pub const HEADER: usize = 12;

impl<'a> GroupPlace<'a> {
    // How long it is: its head takes 3 bytes.
    fn span(self) -> usize
        ensures value { result ≡ 3 + self.entry.count * self.entry.size }
        ensures most { result ≤ 16711428 }
    {
        3 + self.count * self.size
    }
}

// Where the groups begin: behind the header and the root.
pub fn first_group(u: u16, section: Section<'_>) -> usize
    ensures value { result ≡ 12 + block_length u (template_of (shown_section section.entry)).root }
    ensures most { result ≤ 65547 }
{
    HEADER + usize::from(length_at(u, section.size, section.body))
}

// The groups that are still to come, as they are seen at the version, and the place in the bytes where the first of them begins.
#[derive(Clone, Copy)]
pub struct GroupPlaces<'a, 'b> {
    pub version: u16,
    pub bytes: &'b [u8],
    pub place: usize,
    pub groups: Groups<'a>,
    // behind the end of the bytes a group takes 3 bytes, and its line 8
    ghost near: { 8 * place + 3 * length groups.lines.rest.now ≤ 11 * 2 ^ 63 + 2 ^ 27 },
    ghost long: { length groups.lines.rest.now < 2 ^ 63 },
}

impl<'a, 'b> GroupPlaces<'a, 'b> {
    ghost use Rattle.places.specs.Walks.{behind_left};

    // The groups of a frame's template.
    pub fn of(version: u16, bytes: &'b [u8], section: Section<'a>) -> GroupPlaces<'a, 'b>
        ensures version { result.version ≡ version }
        ensures bytes { result.bytes.now ≡ bytes.now }
        ensures first { result.place ≡ 12 + block_length version (template_of (shown_section section.entry)).root }
        ensures lines { result.groups.lines.rest.now ≡ section.entry.body.now }
    {
        GroupPlaces {
            version,
            bytes,
            place: first_group(version, section),
            groups: Groups::of(section.body),
        }
    }

    // The group of a line that begins at the place: with no entries where the bytes end before.
    fn here(&self, line: GroupLine<'a>) -> GroupPlace<'a>
        ensures value { shown_group self.now.version result ≡ group_from self.now.version self.now.bytes.now self.now.place (group_by line.entry) }
        ensures here { result.place ≡ self.now.place }
        ensures none { length self.now.bytes.now ≤ self.now.place → result.count ≡ 0 }
    {
        GroupPlace {
            place: self.place,
            tag: line.tag,
            size: usize::from(length_at(self.version, line.size, line.lines)),
            count: usize::from(entry_count(beyond(self.bytes, self.place))),
            lines: line.lines,
        }
    }

    // The place behind them all.
    pub fn end(self) -> usize
        ensures value { result ≡ behind_left self.entry }
        ensures most { result ≤ 2 ^ 63 + 2 ^ 62 }
    {
        let mut end = self.place;
        for group in self {
            end = group.place + group.span();
        }
        end
    }
}

impl<'a, 'b> Iterator for GroupPlaces<'a, 'b> {
    ghost use Rattle.std.specs.Iterator.{item_count};
    ghost use Rattle.lines.specs.Walks.{groups_left};
    ghost use Rattle.places.specs.Walks.{GivesGroupPlace};

    type Item = GroupPlace<'a>;

    ghost next_gives = { GivesGroupPlace };

    ghost remaining = { item_count (λ w. groups_left w.groups) };

    fn next(&mut self) -> Option<GroupPlace<'a>> {
        let mut groups = self.groups;
        let line = groups.next()?;
        let group = self.here(line);
        self.groups = groups;
        self.place += group.span();
        Some(group)
    }
}

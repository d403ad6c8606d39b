// The groups of a template.
ghost use Rattle.std.specs.Prelude.{◌≡◌};

use dictionary::{Line, Lines};

// A group by its line, and what follows that: the lines of its fields first.
#[derive(Clone, Copy)]
pub struct GroupLine<'a> {
    pub tag: u32,
    pub size: u16,
    pub lines: &'a [u8],
}

// The groups that are still to come. Other than a data, a group is handed out with what follows its line.
#[derive(Clone, Copy)]
pub struct Groups<'a> {
    pub lines: Lines<'a>,
}

impl<'a> Groups<'a> {
    // The groups of the lines.
    pub fn of(lines: &'a [u8]) -> Groups<'a>
        ensures { result.lines.rest.now ≡ lines.now }
    {
        Groups {
            lines: Lines::of(lines),
        }
    }
}

impl<'a> Iterator for Groups<'a> {
    ghost use Rattle.std.specs.Iterator.{item_count};
    ghost use Rattle.lines.specs.Walks.{groups_left, GivesGroup};

    type Item = GroupLine<'a>;

    ghost next_gives = { GivesGroup };

    ghost remaining = { item_count groups_left };

    fn next(&mut self) -> Option<GroupLine<'a>> {
        // Tried with `find_map`; the proof didn't close: where it gives None, what it promises doesn't plainly say that no line is left.
        while let Some(line) = self.lines.next() {
            if let Line::Group { tag, size } = line {
                return Some(GroupLine {
                    tag,
                    size,
                    lines: self.lines.rest,
                });
            }
        }
        None
    }
}

// The data of a template, as they are seen at a version.
ghost use Rattle.std.specs.Prelude.{◌≡◌};

use dictionary::{Line, Lines};

// A data by its line.
#[derive(Clone, Copy, PartialEq, Eq)]
pub struct PartLine {
    pub tag: u32,
    pub since: u16,
    pub longest: u8,
}

// The data that are still to come. What `filter_map` makes of the lines would do the same, but its type could be named only by a function pointer.
#[derive(Clone, Copy)]
pub struct Parts<'a> {
    pub lines: Lines<'a>,
}

impl<'a> Parts<'a> {
    // The data of the lines.
    pub fn of(lines: &'a [u8]) -> Parts<'a>
        ensures { result.lines.rest.now ≡ lines.now }
    {
        Parts {
            lines: Lines::of(lines),
        }
    }
}

impl<'a> Iterator for Parts<'a> {
    ghost use Rattle.std.specs.Iterator.{item_count};
    ghost use Rattle.lines.specs.Walks.{parts_left, GivesPart};

    type Item = PartLine;

    ghost next_gives = { GivesPart };

    ghost remaining = { item_count parts_left };

    fn next(&mut self) -> Option<PartLine> {
        // Tried with `find_map`; the proof didn't close: where it gives None, what it promises doesn't plainly say that no line is left.
        while let Some(line) = self.lines.next() {
            if let Line::Data {
                tag,
                since,
                longest,
            } = line
            {
                return Some(PartLine {
                    tag,
                    since,
                    longest,
                });
            }
        }
        None
    }
}

// Those of them that are not newer than the version. One walk for fields and data would say its steps by the walk inside it, and each of its callers would have to find the list that is left: no plainer.
#[derive(Clone, Copy)]
pub struct SeenParts<'a> {
    pub version: u16,
    pub parts: Parts<'a>,
}

impl<'a> SeenParts<'a> {
    // The data of the lines, as far as they are seen at the version.
    pub fn of(version: u16, lines: &'a [u8]) -> SeenParts<'a>
        ensures version { result.version ≡ version }
        ensures bytes { result.parts.lines.rest.now ≡ lines.now }
    {
        SeenParts {
            version,
            parts: Parts::of(lines),
        }
    }
}

impl<'a> Iterator for SeenParts<'a> {
    ghost use Rattle.std.specs.Iterator.{item_count};
    ghost use Rattle.lines.specs.Walks.{seen_parts_left, GivesSeenPart};

    type Item = PartLine;

    ghost next_gives = { GivesSeenPart };

    ghost remaining = { item_count seen_parts_left };

    fn next(&mut self) -> Option<PartLine> {
        let mut parts = self.parts;
        match parts.next() {
            Some(part) if part.since <= self.version => {
                self.parts = parts;
                Some(part)
            }
            _ => None,
        }
    }
}

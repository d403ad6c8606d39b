// The lines of a template, one after the other.
ghost use Rattle.std.specs.Prelude.{◌≡◌};
ghost use Rattle.dictionary.specs.Walks.{GivesLine};

use crate::line::{Line, first_line};
use wire::tail;

// The lines that are still to come. Where the bytes go on with no line, they are left as they are.
#[derive(Clone, Copy)]
pub struct Lines<'a> {
    pub rest: &'a [u8],
}

impl<'a> Lines<'a> {
    // The lines that the bytes hold, as far as they are lines.
    pub fn of(bytes: &'a [u8]) -> Lines<'a>
        ensures { result.rest.now ≡ bytes.now }
    {
        Lines { rest: bytes }
    }
}

impl<'a> Lines<'a> {
    // The line that the bytes begin with, which is cut off; None where they begin with none, and then they stay. Inlined, as is what calls it.
    #[inline(always)]
    fn cut_first(&mut self) -> Option<Line<'a>>
        ensures { GivesLine self.old result self.new }
    {
        let line = first_line(self.rest)?;
        self.rest = tail(self.rest, line.size());
        Some(line)
    }
}

impl<'a> Iterator for Lines<'a> {
    ghost use Rattle.std.specs.Iterator.{item_count};
    ghost use Rattle.dictionary.specs.Walks.{lines_left, GivesLine};

    type Item = Line<'a>;

    ghost next_gives = { GivesLine };

    ghost remaining = { item_count lines_left };

    // Inlined, so that each loop asks for the end of the lines first, and makes a call only for a line that may be there.
    #[inline(always)]
    fn next(&mut self) -> Option<Line<'a>> {
        if self.rest.is_empty() {
            return None;
        }
        self.cut_first()
    }
}

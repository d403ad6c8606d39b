// Lines as they are seen at a version.
ghost use Rattle.std.specs.Prelude.{◌≡◌};
ghost use Rattle.schema.specs.Lines.{first_line};
ghost use Rattle.dictionary.specs.Seen.{seen_first, shown_seen};

use crate::line::{FieldLine, Line, first_line};

// The field that the lines begin with, where they begin with a field and it is not newer than the version.
pub fn seen_field(lines: &[u8], version: u16) -> Option<FieldLine<'_>>
    ensures { shown_seen result ≡ seen_first version (first_line lines.now) }
{
    match first_line(lines)? {
        Line::Field(f) if f.since <= version => Some(f),
        _ => None,
    }
}

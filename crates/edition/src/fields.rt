// Whether the fields of two blocks are the same.
ghost use Rattle.std.specs.Prelude.{◌≡◌};
ghost use Rattle.schema.specs.Seen.{seen_fields};
ghost use Rattle.dictionary.specs.Shown.{shown_field};
ghost use Rattle.edition.specs.Same.{same_lists, same_field};
ghost use Rattle.lines.specs.Held.{fields_in};

use crate::lists::eq_by;
use dictionary::FieldLine;
use lines::{Fields, SeenFields};

// Whether two fields say the same.
fn same_field(a: FieldLine<'_>, b: FieldLine<'_>) -> bool
    ensures { result ≡ same_field (shown_field a.entry) (shown_field b.entry) }
{
    a == b
}

// Whether the later fields seen at v are the earlier ones.
pub fn same_fields(v: u16, later: &[u8], earlier: &[u8]) -> bool
    ensures { result ≡ same_lists same_field (seen_fields v (fields_in later.now)) (fields_in earlier.now) }
{
    eq_by(SeenFields::of(v, later), Fields::of(earlier), same_field)
}

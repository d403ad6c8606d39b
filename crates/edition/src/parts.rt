// Whether the data of two templates are the same.
ghost use Rattle.std.specs.Prelude.{◌≡◌};
ghost use Rattle.schema.specs.Seen.{seen_parts};
ghost use Rattle.edition.specs.Same.{same_lists, same_data};
ghost use Rattle.lines.specs.Held.{parts_in};
ghost use Rattle.lines.specs.Walks.{data_at};

use crate::lists::eq_by;
use lines::{PartLine, Parts, SeenParts};

// Whether two data say the same.
fn same_part(a: PartLine, b: PartLine) -> bool
    ensures { result ≡ same_data (data_at a) (data_at b) }
{
    a == b
}

// Whether the later data seen at v are the earlier ones.
pub fn same_parts(v: u16, later: &[u8], earlier: &[u8]) -> bool
    ensures { result ≡ same_lists same_data (seen_parts v (parts_in later.now)) (parts_in earlier.now) }
{
    eq_by(SeenParts::of(v, later), Parts::of(earlier), same_part)
}

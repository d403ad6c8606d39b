// Whether the groups of two templates are the same.
ghost use Rattle.std.specs.Prelude.{◌≡◌, map};
ghost use Rattle.schema.specs.Seen.{seen_group};
ghost use Rattle.edition.specs.Same.{same_lists, same_group};
ghost use Rattle.lines.specs.Held.{groups_in};
ghost use Rattle.lines.specs.Walks.{group_at};

use crate::fields::same_fields;
use crate::lists::eq_by;
use lines::{GroupLine, Groups, length_at};

// Whether the later group seen at v is the earlier one.
fn same_group(v: u16, later: GroupLine<'_>, earlier: GroupLine<'_>) -> bool
    ensures { result ≡ same_group (seen_group v (group_at later.entry)) (group_at earlier.entry) }
{
    later.tag == earlier.tag
        && length_at(v, later.size, later.lines) == earlier.size
        && same_fields(v, later.lines, earlier.lines)
}

// Whether the later groups seen at v are the earlier ones.
pub fn same_groups(v: u16, later: &[u8], earlier: &[u8]) -> bool
    ensures { result ≡ same_lists same_group (map (seen_group v) (groups_in later.now)) (groups_in earlier.now) }
{
    eq_by(Groups::of(later), Groups::of(earlier), |a, b| {
        same_group(v, a, b)
    })
}

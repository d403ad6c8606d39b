// How many bytes the groups and the data of a blank form take.
ghost use Rattle.std.specs.Prelude.{◌≡◌, ◌*◌, ◌^◌, ◌≤◌, length};
ghost use Rattle.schema.specs.Seen.{seen_parts};
ghost use Rattle.lines.specs.Held.{groups_in, parts_in};
ghost use Rattle.places.specs.Places.{prefixes};

use lines::{Groups, SeenParts};

// The heads of the groups: 3 bytes each.
pub fn heads_length(lines: &[u8]) -> usize
    ensures value { result ≡ 3 * length (groups_in lines.now) }
    ensures most { result ≤ 2 ^ 62 }
{
    3 * Groups::of(lines).count()
}

// The lengths of the data as they are seen at u: a byte each.
pub fn prefixes_length(u: u16, lines: &[u8]) -> usize
    ensures value { result ≡ prefixes (seen_parts u (parts_in lines.now)) }
    ensures most { result ≤ 2 ^ 62 }
{
    SeenParts::of(u, lines).count()
}

// The data of a template.
ghost use Rattle.std.specs.Prelude.{◌≡◌, ◌+◌, ◌^◌, ◌≤◌, length, drop};
ghost use Rattle.message.specs.Frames.{content_length};
ghost use Rattle.schema.specs.Seen.{seen_parts};
ghost use Rattle.lines.specs.Held.{parts_in};
ghost use Rattle.places.specs.Places.{part_at};
ghost use Rattle.places.specs.Shown.{shown_part_place};

use crate::place::PartPlace;
use crate::refusing::no_such;
use judging::content_length;
use lines::SeenParts;
use wire::{Refusal, beyond};

// How many bytes the data has that begins at a place: none where the bytes end before.
fn content_at(bytes: &[u8], place: usize) -> usize
    ensures value { result ≡ content_length 1 (drop place bytes.now) }
    ensures most { result ≤ 255 }
    ensures none { length bytes.now ≤ place → result ≡ 0 }
{
    content_length(beyond(bytes, place))
}

// The first data with the tag, of data of which the first begins at a place, as they are seen at u.
pub fn part_at(
    u: u16,
    bytes: &[u8],
    place: usize,
    lines: &[u8],
    tag: u32,
) -> Result<PartPlace, Refusal>
    requires { place ≤ 2 ^ 63 + 2 ^ 62 }
    ensures { shown_part_place result ≡ part_at u bytes.now place (seen_parts u (parts_in lines.now)) tag }
{
    let mut at = place;
    for part in SeenParts::of(u, lines) {
        let count = content_at(bytes, at);
        if part.tag == tag {
            return Ok(PartPlace {
                place: at,
                part,
                count,
            });
        }
        at += 1 + count;
    }
    Err(no_such(tag))
}

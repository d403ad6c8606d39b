// What follows the header of a frame, all of it blank.
ghost use Rattle.std.specs.Prelude.{◌≡◌, ◌+◌, ◌≤◌, map, length};
ghost use Rattle.schema.specs.Seen.{seen_group, seen_parts};
ghost use Rattle.message.specs.Messages.{view_of};
ghost use Rattle.lines.specs.Held.{groups_in, parts_in};
ghost use Rattle.moves.specs.Moves.{patched};
ghost use Rattle.blanks.specs.Blanks.{Fitting, blank_bytes, template_in, bare_group, bare_groups, bare_parts};

use crate::block::put_blank_block;
use dictionary::Section;
use lines::{Groups, SeenParts, length_at};
use moves::{put_byte, put_number};
use types::TypeLibrary;

// A group without entries, each of which would be `size` bytes long.
// A buffer and a place stay two parameters: every call that puts bytes takes both, and a struct of the two would be taken apart at each.
fn put_bare_group(buffer: &mut [u8], p: usize, size: u16)
    requires { p + 3 ≤ length buffer.old }
    ensures value { buffer.new ≡ patched p (bare_group size) buffer.old }
    ensures len { length buffer.new ≡ length buffer.old }
{
    put_number(buffer, p, size);
    put_byte(buffer, p + 2, 0);
}

// The groups of a template, as they are seen at u, without entries: where they end.
fn put_bare_groups(u: u16, lines: &[u8], buffer: &mut [u8], p: usize) -> usize
    requires { p + length (bare_groups (map (seen_group u) (groups_in lines.now))) ≤ length buffer.old }
    ensures value { buffer.new ≡ patched p (bare_groups (map (seen_group u) (groups_in lines.now))) buffer.old }
    ensures end { result ≡ p + length (bare_groups (map (seen_group u) (groups_in lines.now))) }
    ensures len { length buffer.new ≡ length buffer.old }
{
    let mut place = p;
    for group in Groups::of(lines) {
        put_bare_group(buffer, place, length_at(u, group.size, group.lines));
        place += 3;
    }
    place
}

// The data of a template that are seen at u, empty. By a loop: to count them first, this crate would have to use places, for a lemma alone.
fn put_bare_parts(u: u16, lines: &[u8], buffer: &mut [u8], p: usize)
    requires { p + length (bare_parts (seen_parts u (parts_in lines.now))) ≤ length buffer.old }
    ensures value { buffer.new ≡ patched p (bare_parts (seen_parts u (parts_in lines.now))) buffer.old }
    ensures len { length buffer.new ≡ length buffer.old }
{
    let mut place = p;
    for _ in SeenParts::of(u, lines) {
        put_byte(buffer, place, 0);
        place += 1;
    }
}

// Puts what follows the header of a new frame: a blank root, groups without entries, empty data, by a template as it is seen at u.
pub fn put_blank_contents<L: TypeLibrary>(
    library: &L,
    u: u16,
    section: Section<'_>,
    buffer: &mut [u8],
)
    requires room { 12 + length (blank_bytes (view_of (L.known library.now) (template_in u section))) ≤ length buffer.old }
    requires fit { Fitting (L.known library.now) 0 (template_in u section).root.fields (template_in u section).root.size }
    ensures value { buffer.new ≡ patched 12 (blank_bytes (view_of (L.known library.now) (template_in u section.entry))) buffer.old }
    ensures len { length buffer.new ≡ length buffer.old }
{
    let size = length_at(u, section.size, section.body) as usize;
    put_blank_block(library, u, size, section.body, buffer, 12);
    let end = put_bare_groups(u, section.body, buffer, 12 + size);
    put_bare_parts(u, section.body, buffer, end);
}

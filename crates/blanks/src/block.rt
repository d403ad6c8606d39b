// A block whose fields are all blank.
ghost use Rattle.std.specs.Prelude.{◌≡◌, ◌+◌, ◌≤◌, true, length};
ghost use Rattle.schema.specs.Geometry.{kind_of, is_known, field_end};
ghost use Rattle.schema.specs.Seen.{seen_fields};
ghost use Rattle.message.specs.Messages.{block_view};
ghost use Rattle.dictionary.specs.Shown.{shown_field};
ghost use Rattle.lines.specs.Held.{fields_in};
ghost use Rattle.moves.specs.Moves.{patched};
ghost use Rattle.blanks.specs.Blanks.{Fitting, blank_field, blank_block, block_in};

use dictionary::FieldLine;
use lines::SeenFields;
use moves::{put, put_zeros};
use types::TypeLibrary;

// Zeros up to a field and its blank, in a block that begins at `base` and is written up to `at`: where the field ends.
fn put_blank_field<L: TypeLibrary>(
    library: &L,
    f: FieldLine<'_>,
    buffer: &mut [u8],
    base: usize,
    at: usize,
) -> usize
    requires order { at ≤ f.offset }
    requires named { is_known (kind_of (L.known library.now) (shown_field f)) ≡ true }
    requires room { base + field_end (L.known library.now) (shown_field f) ≤ length buffer.old }
    ensures value { buffer.new ≡ patched (base + at) (blank_field (L.known library.now) at (shown_field f.entry)) buffer.old }
    ensures end { result ≡ field_end (L.known library.now) (shown_field f.entry) }
    ensures len { length buffer.new ≡ length buffer.old }
{
    let offset = f.offset as usize;
    match library.blank(f.number, f.argument) {
        Ok(blank) => {
            let bytes = blank.as_bytes();
            put_zeros(buffer, base + at, offset - at);
            put(buffer, base + offset, bytes);
            offset + bytes.len()
        }
        Err(_) => offset,
    }
}

// Puts a blank block of `size` bytes at `base`; `lines` begins with its fields, of which those seen at u count.
pub fn put_blank_block<L: TypeLibrary>(
    library: &L,
    u: u16,
    size: usize,
    lines: &[u8],
    buffer: &mut [u8],
    base: usize,
)
    requires room { base + size ≤ length buffer.old }
    requires fit { Fitting (L.known library.now) 0 (seen_fields u (fields_in lines.now)) size }
    ensures value { buffer.new ≡ patched base (blank_block (block_view (L.known library.now) (block_in u size lines.now))) buffer.old }
    ensures len { length buffer.new ≡ length buffer.old }
{
    let mut at = 0;
    for field in SeenFields::of(u, lines) {
        at = put_blank_field(library, field, buffer, base, at);
    }
    put_zeros(buffer, base + at, size - at);
}

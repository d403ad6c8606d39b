// The header of a frame.
ghost use Rattle.std.specs.Prelude.{◌≡◌, ◌≤◌, length};
ghost use Rattle.moves.specs.Moves.{patched};
ghost use Rattle.message.specs.Messages.{header};

use moves::put_number;

// What the second number of a header is. A limit stands in each crate that holds to it, so that an edit of it proves that crate alone.
const ENCODING: u16 = 0xEB50;

// Puts a header at the front: the length of the whole frame, that of the root block, the template, the schema id and the version.
pub fn put_header(
    buffer: &mut [u8],
    whole: u16,
    size: u16,
    template: u16,
    schema: u16,
    version: u16,
)
    requires { 12 ≤ length buffer.old }
    ensures value { buffer.new ≡ patched 0 (header whole size template schema version) buffer.old }
    ensures len { length buffer.new ≡ length buffer.old }
{
    put_number(buffer, 0, whole);
    put_number(buffer, 2, ENCODING);
    put_number(buffer, 4, size);
    put_number(buffer, 6, template);
    put_number(buffer, 8, schema);
    put_number(buffer, 10, version);
}

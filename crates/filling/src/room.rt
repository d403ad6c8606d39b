// Bytes put and moved where there is room for them.
ghost use Rattle.std.specs.Prelude.{◌≡◌, ◌+◌, ◌≤◌, length, Ok, nat_le};
ghost use Rattle.wire.specs.Numbers.{le_bytes};
ghost use Rattle.steps.specs.Steps.{patched_in, shifted_in, has_room};

use moves::{put, shift};
use wire::{Reason, Refusal};

// The longest frame. A limit stands in each crate that holds to it, so that an edit of it proves that crate alone.
pub const LONGEST: usize = 16384;

// Whether n bytes from p on lie within a buffer.
pub fn is_within(room: usize, p: usize, n: usize) -> bool
    ensures { result ≡ nat_le (p + n) room }
{
    p <= room && n <= room - p
}

// Buffer and place stay two parameters, as in moves.

// The bytes x at p.
pub fn put_in(buffer: &mut [u8], p: usize, x: &[u8])
    ensures value { buffer.new ≡ patched_in p x.now buffer.old }
    ensures long { length buffer.new ≡ length buffer.old }
{
    if is_within(buffer.len(), p, x.len()) {
        put(buffer, p, x);
    }
}

// How long the frame is, at its beginning.
pub fn put_length(buffer: &mut [u8], n: u16)
    ensures value { buffer.new ≡ patched_in 0 (le_bytes 2 n) buffer.old }
    ensures long { length buffer.new ≡ length buffer.old }
{
    put_in(buffer, 0, &n.to_le_bytes());
}

// What stands from `from` up to `end` also at `to`.
pub fn shift_in(buffer: &mut [u8], from: usize, end: usize, to: usize)
    ensures value { buffer.new ≡ shifted_in from end to buffer.old }
    ensures long { length buffer.new ≡ length buffer.old }
{
    if from <= end && end <= buffer.len() && is_within(buffer.len(), to, end - from) {
        shift(buffer, from, end, to);
    }
}

// A frame of n bytes has room in a buffer, and is no longer than a frame may be.
pub fn check_room(n: usize, room: usize) -> Result<(), Refusal>
    ensures value { result ≡ has_room n room }
    ensures fits { result ≡ Ok tt → (n ≤ room) × (n ≤ 16384) }
{
    if n > room || n > LONGEST {
        return Err(Reason::NoRoom.at(n, 0));
    }
    Ok(())
}

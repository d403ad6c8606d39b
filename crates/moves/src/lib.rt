// Bytes put and moved in a buffer.
// Each function says the length again, as its own clause: a struct round the buffer is no plainer, callers lend a slice of theirs.
#![tactic(auto)]

ghost use Rattle.std.specs.Prelude.{◌≡◌, ◌+◌, ◌-◌, ◌<◌, ◌≤◌, [], ◌∷◌, length, replicate};
ghost use Rattle.wire.specs.Numbers.{le_bytes};
ghost use Rattle.moves.specs.Moves.{patched, shifted};

use wire::le_put;

// Puts the bytes x at p.
pub fn put(buffer: &mut [u8], p: usize, x: &[u8])
    requires { p + length x.now ≤ length buffer.old }
    ensures value { buffer.new ≡ patched p x.now buffer.old }
    ensures len { length buffer.new ≡ length buffer.old }
{
    buffer[p..p + x.len()].copy_from_slice(x);
}

// Puts n zeros at p.
pub fn put_zeros(buffer: &mut [u8], p: usize, n: usize)
    requires { p + n ≤ length buffer.old }
    ensures value { buffer.new ≡ patched p (replicate n 0) buffer.old }
    ensures len { length buffer.new ≡ length buffer.old }
{
    buffer[p..p + n].fill(0);
}

// Puts a number at p in two bytes, the little end first.
pub fn put_number(buffer: &mut [u8], p: usize, n: u16)
    requires { p + 2 ≤ length buffer.old }
    ensures value { buffer.new ≡ patched p (le_bytes 2 n) buffer.old }
    ensures len { length buffer.new ≡ length buffer.old }
{
    le_put(&mut buffer[p..p + 2], n as u64);
}

// Puts one byte at p.
pub fn put_byte(buffer: &mut [u8], p: usize, b: u8)
    requires { p < length buffer.old }
    ensures value { buffer.new ≡ patched p (b ∷ []) buffer.old }
    ensures len { length buffer.new ≡ length buffer.old }
{
    buffer[p] = b;
}

// Moves what stands from `from` up to `end` to `to`.
pub fn shift(buffer: &mut [u8], from: usize, end: usize, to: usize)
    requires order { from ≤ end }
    requires within { end ≤ length buffer.old }
    requires room { to + (end - from) ≤ length buffer.old }
    ensures value { buffer.new ≡ shifted from end to buffer.old }
    ensures len { length buffer.new ≡ length buffer.old }
{
    buffer.copy_within(from..end, to);
}

// The numbers of a dictionary's head.
ghost use Rattle.std.specs.Prelude.{◌≡◌};
ghost use Rattle.schema.specs.Lines.{number_2};

use wire::{be_read, beyond, upto};

// The big-endian number of two bytes at p, or of as many of them as there are. Big end here, little end in a frame.
pub fn number_at(s: &[u8], p: usize) -> u16
    ensures { result ≡ number_2 s.now p }
{
    be_read(upto(beyond(s, p), 2)) as u16
}

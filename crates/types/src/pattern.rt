// The bytes of a field of some type.
ghost use Rattle.std.specs.Prelude.{◌≤◌};

// Up to 20 bytes: what a library answers for a blank or for a value.
// No heap here, and a pattern is copied: the bytes stand in place, beside their width.
#[derive(Clone, Copy)]
pub struct Pattern {
    pub(crate) bytes: [u8; 20],
    pub(crate) width: usize,
    ghost short: { width ≤ 20 },
}

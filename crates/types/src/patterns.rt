// Making and reading patterns.
ghost use Rattle.std.specs.Prelude.{◌≡◌, ◌≤◌, length, take};
ghost use Rattle.types.specs.Patterns.{pattern_bytes};

use crate::pattern::Pattern;

impl Pattern {
    // The bytes as a pattern; of more than 20 the first 20.
    pub fn of(bytes: &[u8]) -> Pattern
        ensures value { pattern_bytes result ≡ take 20 bytes.now }
        ensures whole { length bytes.now ≤ 20 → pattern_bytes result ≡ bytes.now }
    {
        let width = bytes.len().min(20);
        let mut held = [0u8; 20];
        held[..width].copy_from_slice(&bytes[..width]);
        Pattern { bytes: held, width }
    }

    pub fn as_bytes(&self) -> &[u8]
        ensures value { result.now ≡ pattern_bytes self.now }
        ensures len { length result.now ≤ 20 }
    {
        &self.bytes[..self.width]
    }
}

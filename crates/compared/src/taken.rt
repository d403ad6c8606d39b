// Bytes taken one after the other from the front of bytes.
ghost use Rattle.std.specs.Prelude.{◌≡◌, ◌<◌, ◌≤◌, length, take, drop, MatchOption};

// What is still to be taken.
#[derive(Clone, Copy)]
pub struct Taken<'a> {
    pub rest: &'a [u8],
}

impl<'a> Taken<'a> {
    // As many bytes as the array has.
    pub fn array<const W: usize>(&mut self) -> Option<[u8; W]>
        ensures taken { MatchOption result (length self.old.rest.now < W) (λ found. (found ≡ take W self.old.rest.now) × (self.new.rest.now ≡ drop W self.old.rest.now)) }
        ensures less { length self.new.rest.now ≤ length self.old.rest.now }
    {
        let (found, rest) = self.rest.split_first_chunk()?;
        self.rest = rest;
        Some(*found)
    }

    // So many bytes.
    pub fn part(&mut self, count: usize) -> Option<&'a [u8]>
        ensures taken { MatchOption result (length self.old.rest.now < count) (λ found. (found.now ≡ take count self.old.rest.now) × (self.new.rest.now ≡ drop count self.old.rest.now)) }
        ensures less { length self.new.rest.now ≤ length self.old.rest.now }
    {
        let (found, rest) = self.rest.split_at_checked(count)?;
        self.rest = rest;
        Some(found)
    }

    // Bytes behind their number, which has two bytes.
    pub fn bytes(&mut self) -> Option<&'a [u8]>
        ensures { length self.new.rest.now ≤ length self.old.rest.now }
    {
        let count = u16::from_le_bytes(self.array()?);
        self.part(count as usize)
    }
}

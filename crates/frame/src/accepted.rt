// An accepted frame.
ghost use Rattle.std.specs.Prelude.{◌≡◌};

// The bytes that were accepted, and the dictionary under which they were. Only `accept` makes one.
#[derive(Clone, Copy)]
pub struct Frame<'a> {
    pub(crate) bytes: &'a [u8],
    pub(crate) dictionary: &'a [u8],
}

impl<'a> Frame<'a> {
    // The bytes of the frame.
    pub fn bytes(&self) -> &'a [u8]
        ensures { result ≡ self.now.bytes }
    {
        self.bytes
    }

    // The dictionary under which they were accepted.
    pub fn dictionary(&self) -> &'a [u8]
        ensures { result ≡ self.now.dictionary }
    {
        self.dictionary
    }
}

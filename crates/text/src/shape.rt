// The types of the library.
ghost use Rattle.std.specs.Prelude.{◌≤◌};

// Text of a width.
#[derive(Clone, Copy)]
pub(crate) struct Text {
    pub width: usize,
    ghost narrow: { width ≤ 20 },
}

// A type that the library knows.
#[derive(Clone, Copy)]
pub(crate) enum Shape {
    Text(Text),
    Investor,
}

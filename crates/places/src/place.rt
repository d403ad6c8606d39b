// Places of what is found. Whatever the bytes are, the numbers stay within bounds.
ghost use Rattle.std.specs.Prelude.{◌+◌, ◌^◌, ◌<◌, ◌≤◌};

use dictionary::FieldLine;
use lines::PartLine;

// A field, and the place of its bytes.
#[derive(Clone, Copy)]
pub struct FieldPlace<'a> {
    pub place: usize,
    pub field: FieldLine<'a>,
    pub ghost near: { place < 2 ^ 63 + 2 ^ 62 + 2 ^ 61 },
}

// A group, the place where it begins, the length of an entry, and the number of its entries.
#[derive(Clone, Copy)]
pub struct GroupPlace<'a> {
    pub place: usize,
    pub tag: u32,
    pub size: usize,
    pub count: usize,
    // what follows the group's line: the lines of its fields first
    pub lines: &'a [u8],
    pub ghost near: { place ≤ 2 ^ 63 + 2 ^ 62 },
    pub ghost few: { count ≤ 255 },
    pub ghost short: { size ≤ 65535 },
}

// A data, the place where it begins, and how many bytes it has behind the byte that tells their number.
#[derive(Clone, Copy)]
pub struct PartPlace {
    pub place: usize,
    pub part: PartLine,
    pub count: usize,
    pub ghost near: { place < 2 ^ 63 + 2 ^ 62 + 2 ^ 61 },
    pub ghost few: { count ≤ 255 },
}

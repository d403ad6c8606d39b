// Which types are known, with their widths and blanks.
use crate::answers::show_type;
use numbers::Numbers;
use std::io;
use text::Texts;
use types::{Joined, TypeLibrary};

// Arguments of the types that have an absent rule alone: four rules, two bytes that are none, no byte, two bytes.
const RULES: [&[u8]; 8] = [&[0], &[1], &[2], &[3], &[4], &[255], &[], &[0, 0]];

const DECIMALS: [&[u8]; 13] = [
    &[0, 2],
    &[1, 2],
    &[2, 2],
    &[3, 2],
    &[4, 2],
    &[255, 2],
    &[0, 0],
    &[0, 9],
    &[0, 10],
    &[3, 10],
    &[],
    &[0],
    &[0, 0, 0],
];

// The longest list of codes.
pub(crate) const CODES_32: &[u8] =
    b"\x01\x02\x03\x04\x05\x06\x07\x08\x09\x0A\x0B\x0C\x0D\x0E\x0F\x10\x11\x12\x13\x14\x15\x16\x17\x18\x19\x1A\x1B\x1C\x1D\x1E\x1F\x20";

// One code more than a list can have.
pub(crate) const CODES_33: &[u8] =
    b"\x01\x02\x03\x04\x05\x06\x07\x08\x09\x0A\x0B\x0C\x0D\x0E\x0F\x10\x11\x12\x13\x14\x15\x16\x17\x18\x19\x1A\x1B\x1C\x1D\x1E\x1F\x20\x21";

// The longest list with 00 in it.
const CODES_FROM_0: &[u8] =
    b"\0\x01\x02\x03\x04\x05\x06\x07\x08\x09\x0A\x0B\x0C\x0D\x0E\x0F\x10\x11\x12\x13\x14\x15\x16\x17\x18\x19\x1A\x1B\x1C\x1D\x1E\x1F";

const LISTS: [&[u8]; 13] = [
    b"1",
    b"12",
    &[255],
    &[0],
    &[0, 0x31],
    CODES_32,
    CODES_FROM_0,
    CODES_33,
    &[],
    b"21",
    b"11",
    &[0x31, 0x32, 0],
    &[0, 0],
];

const TEXTS: [&[u8]; 8] = [&[0], &[1], &[3], &[20], &[21], &[255], &[], &[1, 1]];

const INVESTORS: [&[u8]; 3] = [&[], &[0], &[8]];

// Numbers that no library knows.
const UNKNOWN_NUMBERS: [u8; 5] = [0, 9, 64, 67, 255];

// Types that one library knows, or none.
const ONE_SIDED: [(u8, &[u8]); 5] = [(2, &[2]), (7, &[0, 0x31]), (65, &[3]), (66, &[]), (9, &[1])];

// The type of one number at each argument.
fn arguments<L: TypeLibrary>(
    rt: &HostRuntime,
    library: &L,
    number: u8,
    table: &[&'static [u8]],
) -> io::Result<()> {
    for argument in table {
        show_type(rt, "type", library, number, *argument)?;
    }
    Ok(())
}

// The types with a rule alone.
fn with_rule<L: TypeLibrary>(rt: &HostRuntime, library: &L) -> io::Result<()> {
    for number in 1..7u8 {
        arguments(rt, library, number, &RULES)?;
    }
    Ok(())
}

fn unknown<L: TypeLibrary>(rt: &HostRuntime, library: &L) -> io::Result<()> {
    for number in &UNKNOWN_NUMBERS {
        show_type(rt, "type", library, *number, &[])?;
        show_type(rt, "type", library, *number, &[1])?;
    }
    Ok(())
}

// Each type at both libraries joined and at each alone.
fn sides(rt: &HostRuntime, library: &Joined<Numbers, Texts>) -> io::Result<()> {
    for (number, argument) in &ONE_SIDED {
        show_type(rt, "joined", library, *number, *argument)?;
        show_type(rt, "numbers", &library.left, *number, *argument)?;
        show_type(rt, "texts", &library.right, *number, *argument)?;
    }
    Ok(())
}

pub(crate) fn run(rt: &HostRuntime, library: &Joined<Numbers, Texts>) -> io::Result<()> {
    with_rule(rt, library)?;
    arguments(rt, library, 8, &DECIMALS)?;
    arguments(rt, library, 7, &LISTS)?;
    arguments(rt, library, 65, &TEXTS)?;
    arguments(rt, library, 66, &INVESTORS)?;
    unknown(rt, library)?;
    sides(rt, library)
}

// The ends of each width, at each absent rule.
use crate::answers::{show_read, show_write};
use std::io;
use types::{TypeLibrary, Value};

// Three patterns of a type: zero, all bits one, only the top bit set. Each may mean absent.
struct Marks {
    number: u8,
    zero: &'static [u8],
    ones: &'static [u8],
    top: &'static [u8],
}

const UNSIGNED_MARKS: [Marks; 4] = [
    Marks {
        number: 1,
        zero: &[0],
        ones: &[255],
        top: &[128],
    },
    Marks {
        number: 2,
        zero: &[0, 0],
        ones: &[255, 255],
        top: &[0, 128],
    },
    Marks {
        number: 3,
        zero: &[0, 0, 0, 0],
        ones: &[255, 255, 255, 255],
        top: &[0, 0, 0, 128],
    },
    Marks {
        number: 4,
        zero: &[0, 0, 0, 0, 0, 0, 0, 0],
        ones: &[255, 255, 255, 255, 255, 255, 255, 255],
        top: &[0, 0, 0, 0, 0, 0, 0, 128],
    },
];

const SIGNED_MARKS: [Marks; 2] = [
    Marks {
        number: 5,
        zero: &[0, 0, 0, 0],
        ones: &[255, 255, 255, 255],
        top: &[0, 0, 0, 128],
    },
    Marks {
        number: 6,
        zero: &[0, 0, 0, 0, 0, 0, 0, 0],
        ones: &[255, 255, 255, 255, 255, 255, 255, 255],
        top: &[0, 0, 0, 0, 0, 0, 0, 128],
    },
];

const DECIMAL_MARKS: Marks = Marks {
    number: 8,
    zero: &[0, 0, 0, 0, 0, 0, 0, 0],
    ones: &[255, 255, 255, 255, 255, 255, 255, 255],
    top: &[0, 0, 0, 0, 0, 0, 0, 128],
};

const BYTE_ENDS: [Value<'static>; 5] = [
    Value::Unsigned(0),
    Value::Unsigned(1),
    Value::Unsigned(254),
    Value::Unsigned(255),
    Value::Unsigned(256),
];

const TWO_BYTE_ENDS: [Value<'static>; 5] = [
    Value::Unsigned(0),
    Value::Unsigned(1),
    Value::Unsigned(65534),
    Value::Unsigned(65535),
    Value::Unsigned(65536),
];

const FOUR_BYTE_ENDS: [Value<'static>; 5] = [
    Value::Unsigned(0),
    Value::Unsigned(1),
    Value::Unsigned(4294967294),
    Value::Unsigned(4294967295),
    Value::Unsigned(4294967296),
];

const EIGHT_BYTE_ENDS: [Value<'static>; 4] = [
    Value::Unsigned(0),
    Value::Unsigned(1),
    Value::Unsigned(18446744073709551614),
    Value::Unsigned(18446744073709551615),
];

const SIGNED_FOUR_BYTE_ENDS: [Value<'static>; 9] = [
    Value::Signed(-2147483649),
    Value::Signed(-2147483648),
    Value::Signed(-2147483647),
    Value::Signed(-1),
    Value::Signed(0),
    Value::Signed(1),
    Value::Signed(2147483646),
    Value::Signed(2147483647),
    Value::Signed(2147483648),
];

const SIGNED_EIGHT_BYTE_ENDS: [Value<'static>; 7] = [
    Value::Signed(-9223372036854775808),
    Value::Signed(-9223372036854775807),
    Value::Signed(-1),
    Value::Signed(0),
    Value::Signed(1),
    Value::Signed(9223372036854775806),
    Value::Signed(9223372036854775807),
];

const DECIMAL_ENDS: [Value<'static>; 7] = [
    Value::Decimal(-9223372036854775808, 2),
    Value::Decimal(-9223372036854775807, 2),
    Value::Decimal(-1, 2),
    Value::Decimal(0, 2),
    Value::Decimal(1, 2),
    Value::Decimal(9223372036854775806, 2),
    Value::Decimal(9223372036854775807, 2),
];

// The arguments of a type, one for each absent rule; of a decimal type two decimals behind it.
const UNSIGNED_RULES: [&[u8]; 3] = [&[0], &[1], &[2]];

const SIGNED_RULES: [&[u8]; 4] = [&[0], &[1], &[2], &[3]];

const DECIMAL_RULES: [&[u8]; 4] = [&[0, 2], &[1, 2], &[2, 2], &[3, 2]];

// What the three patterns mean.
fn show_marks<L: TypeLibrary>(
    rt: &HostRuntime,
    library: &L,
    marks: &Marks,
    argument: &[u8],
) -> io::Result<()> {
    show_read(rt, library, marks.number, argument, marks.zero)?;
    show_read(rt, library, marks.number, argument, marks.ones)?;
    show_read(rt, library, marks.number, argument, marks.top)
}

// The patterns at types of their number: one for each argument.
fn show_rules<L: TypeLibrary>(
    rt: &HostRuntime,
    library: &L,
    marks: &Marks,
    arguments: &[&'static [u8]],
) -> io::Result<()> {
    for argument in arguments {
        show_marks(rt, library, marks, *argument)?;
    }
    Ok(())
}

fn every_mark<L: TypeLibrary>(rt: &HostRuntime, library: &L) -> io::Result<()> {
    for marks in &UNSIGNED_MARKS {
        show_rules(rt, library, marks, &UNSIGNED_RULES)?;
    }
    for marks in &SIGNED_MARKS {
        show_rules(rt, library, marks, &SIGNED_RULES)?;
    }
    show_rules(rt, library, &DECIMAL_MARKS, &DECIMAL_RULES)
}

// The values at the ends of a range, each written at types of one number: one for each argument.
fn ends<L: TypeLibrary>(
    rt: &HostRuntime,
    library: &L,
    number: u8,
    arguments: &[&'static [u8]],
    values: &[Value<'static>],
) -> io::Result<()> {
    for argument in arguments {
        for value in values {
            show_write(rt, library, number, *argument, *value)?;
        }
    }
    Ok(())
}

pub(crate) fn run<L: TypeLibrary>(rt: &HostRuntime, library: &L) -> io::Result<()> {
    every_mark(rt, library)?;
    ends(rt, library, 1, &UNSIGNED_RULES, &BYTE_ENDS)?;
    ends(rt, library, 2, &UNSIGNED_RULES, &TWO_BYTE_ENDS)?;
    ends(rt, library, 3, &UNSIGNED_RULES, &FOUR_BYTE_ENDS)?;
    ends(rt, library, 4, &UNSIGNED_RULES, &EIGHT_BYTE_ENDS)?;
    ends(rt, library, 5, &SIGNED_RULES, &SIGNED_FOUR_BYTE_ENDS)?;
    ends(rt, library, 6, &SIGNED_RULES, &SIGNED_EIGHT_BYTE_ENDS)?;
    ends(rt, library, 8, &DECIMAL_RULES, &DECIMAL_ENDS)
}

// The number types: their widths, forms and absent rules, by number and argument.
ghost use Rattle.std.specs.Prelude.{◌≡◌, ◌≤◌};
ghost use Rattle.numbers.specs.Numerics.{bytes_in, entry_of, rule_of, with_form, numeric_of};

// How many bytes a number has.
#[derive(Clone, Copy)]
pub(crate) enum Width {
    One = 1,
    Two = 2,
    Four = 4,
    Eight = 8,
}

// What bits stand for: a number from zero up, one in two's complement, or a mantissa in two's complement with so many decimals.
#[derive(Clone, Copy)]
pub(crate) enum Form {
    Unsigned,
    Signed,
    Decimal(u8),
}

// Which pattern means absent: none, zero, all bits one, or only the top bit set.
#[derive(Clone, Copy)]
pub(crate) enum Absent {
    Never,
    Zero,
    Ones,
    Top,
}

// A type of numbers.
#[derive(Clone, Copy)]
pub(crate) struct Numeric {
    pub width: Width,
    pub form: Form,
    pub absent: Absent,
}

// A decimal has at most so many decimals.
const MOST_DECIMALS: u8 = 9;

impl Width {
    // The width in bytes.
    pub(crate) fn bytes(self) -> usize
        ensures value { result ≡ bytes_in self }
        ensures bound { result ≤ 8 }
    {
        self as usize
    }
}

// The width and the form of a type by its number; the decimals are those of number 8.
fn entry(number: u8, decimals: u8) -> Option<(Width, Form)>
    ensures { result ≡ entry_of number decimals }
{
    match number {
        1 => Some((Width::One, Form::Unsigned)),
        2 => Some((Width::Two, Form::Unsigned)),
        3 => Some((Width::Four, Form::Unsigned)),
        4 => Some((Width::Eight, Form::Unsigned)),
        5 => Some((Width::Four, Form::Signed)),
        6 => Some((Width::Eight, Form::Signed)),
        8 => Some((Width::Eight, Form::Decimal(decimals))),
        _ => None,
    }
}

// The absent rule that a byte names; the top bit is for signed forms only.
fn rule(form: Form, byte: u8) -> Option<Absent>
    ensures { result ≡ rule_of form byte }
{
    match (byte, form) {
        (0, _) => Some(Absent::Never),
        (1, _) => Some(Absent::Zero),
        (2, _) => Some(Absent::Ones),
        (3, Form::Signed | Form::Decimal(_)) => Some(Absent::Top),
        _ => None,
    }
}

// The type of a number with its decimals and the byte of its absent rule.
fn ruled(number: u8, decimals: u8, byte: u8) -> Option<Numeric>
    ensures { result ≡ with_form (entry_of number decimals) byte }
{
    let (width, form) = entry(number, decimals)?;
    let absent = rule(form, byte)?;
    Some(Numeric {
        width,
        form,
        absent,
    })
}

// The type of numbers that a number and an argument name.
pub(crate) fn numeric_of(number: u8, argument: &[u8]) -> Option<Numeric>
    ensures { result ≡ numeric_of number argument.now }
{
    match (number, argument) {
        (8, [byte, decimals @ 0..=MOST_DECIMALS]) => ruled(8, *decimals, *byte),
        (8, _) => None,
        (_, [byte]) => ruled(number, 0, *byte),
        _ => None,
    }
}

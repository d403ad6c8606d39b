// Numbers as bits of a width: what they stand for, and which of them mean absent.
ghost use Rattle.std.specs.Prelude.{◌≡◌, ◌^◌, ◌<◌};
ghost use Rattle.types.specs.Meanings.{meaning};
ghost use Rattle.numbers.specs.Numerics.{bytes_in};
ghost use Rattle.numbers.specs.Bits.{ones, absent_bits, is_mark, signed_of, signed_bits, value_of, bits_of};

use crate::numeric::{Absent, Form, Numeric, Width};
use types::Value;

impl Width {
    // All bits one.
    fn all_ones(self) -> u64
        ensures { result ≡ ones (bytes_in self) }
    {
        match self {
            Width::One => 0xFF,
            Width::Two => 0xFFFF,
            Width::Four => 0xFFFF_FFFF,
            Width::Eight => 0xFFFF_FFFF_FFFF_FFFF,
        }
    }

    // Bits as a number in two's complement. One formula serves four widths; by casts each width would have an arm.
    fn signed_of(self, bits: u64) -> i64
        requires { bits < 256 ^ bytes_in self }
        ensures { result ≡ signed_of (bytes_in self) bits }
    {
        let ones = self.all_ones();
        if bits <= ones / 2 {
            bits as i64
        } else {
            -1 - (ones - bits) as i64
        }
    }

    // The bits of a number in two's complement, where it is in range.
    fn signed_bits(self, n: i64) -> Option<u64>
        ensures { result ≡ signed_bits (bytes_in self) n }
    {
        let ones = self.all_ones();
        if n >= 0 {
            let above = n as u64;
            (above <= ones / 2).then_some(above)
        } else {
            let below = (-1 - n) as u64;
            (below <= ones / 2).then(|| ones - below)
        }
    }
}

impl Numeric {
    // The bits that mean absent.
    pub(crate) fn absent_bits(self) -> Option<u64>
        ensures { result ≡ absent_bits (bytes_in self.width) self.absent }
    {
        let ones = self.width.all_ones();
        match self.absent {
            Absent::Never => None,
            Absent::Zero => Some(0),
            Absent::Ones => Some(ones),
            Absent::Top => Some(ones / 2 + 1),
        }
    }

    // Whether bits mean absent.
    pub(crate) fn is_absent(self, bits: u64) -> bool
        ensures { result ≡ is_mark (absent_bits (bytes_in self.width) self.absent) bits }
    {
        self.absent_bits() == Some(bits)
    }

    // The value that bits stand for.
    pub(crate) fn value_of<'a>(self, bits: u64) -> Value<'a>
        requires { bits < 256 ^ bytes_in self.width }
        ensures { meaning result ≡ value_of self.form (bytes_in self.width) bits }
    {
        match self.form {
            Form::Unsigned => Value::unsigned(bits),
            Form::Signed => Value::signed(self.width.signed_of(bits)),
            Form::Decimal(decimals) => Value::decimal(self.width.signed_of(bits), decimals),
        }
    }

    // The bits that stand for a value, where it is one of the type's values.
    pub(crate) fn bits_of(self, value: Value<'_>) -> Option<u64>
        ensures { result ≡ bits_of self.form (bytes_in self.width) (meaning value.entry) }
    {
        match (self.form, value) {
            (Form::Unsigned, Value::Unsigned(n)) if n <= self.width.all_ones() => Some(n),
            (Form::Signed, Value::Signed(n)) => self.width.signed_bits(n),
            (Form::Decimal(decimals), Value::Decimal(mantissa, digits)) if digits == decimals => {
                self.width.signed_bits(mantissa)
            }
            _ => None,
        }
    }
}

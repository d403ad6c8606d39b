// How bytes, values and refusals are printed.
ghost use Rattle.std.specs.Prelude.{◌≡◌, ◌<◌, true, [], ◌∷◌, Some};
ghost use Rattle.std.specs.Fmt.{WritesOnOk, digit_glyph};
ghost use Rattle.std.proofs.Math.Utf8.{encode};
ghost use Rattle.types.specs.Answers.{meant_by};
ghost use Rattle.types.specs.Meanings.{meaning};
ghost use Rattle.printing.specs.Written.{hex, pair, written_value, place_and_number};

use std::fmt;
use types::Value;
use wire::Refusal;

// A digit in hexadecimal.
fn digit(n: u8) -> char
    requires { n < 16 }
    ensures { encode result ≡ digit_glyph true n ∷ [] }
{
    if n < 10 {
        (b'0' + n) as char
    } else {
        (b'A' - 10 + n) as char
    }
}

// Writes the two digits of a byte. `{:02X}` writes the same, and takes half as long again.
fn put_pair<W: fmt::Write>(f: &mut fmt::Formatter<W>, b: u8) -> fmt::Result
    ensures { WritesOnOk W.write_str_gives f.old result (pair b) f.new }
{
    f.write_char(digit(b / 16))?;
    f.write_char(digit(b % 16))
}

// Bytes in hexadecimal, a dash where there are none.
#[derive(Clone, Copy)]
pub struct Hex<'a>(pub &'a [u8]);

impl fmt::Display for Hex<'_> {
    ghost output = { λ x. Some (hex x.0.now) };

    fn fmt<W: fmt::Write>(&self, f: &mut fmt::Formatter<W>) -> fmt::Result {
        if self.0.is_empty() {
            return f.write_str("-");
        }
        for &b in self.0 {
            put_pair(f, b)?;
        }
        Ok(())
    }
}

// A value by its numbers, of a text its bytes.
#[derive(Clone, Copy)]
pub struct Plain<'a>(pub Value<'a>);

impl fmt::Display for Plain<'_> {
    ghost output = { λ x. Some (written_value (meaning x.0)) };

    fn fmt<W: fmt::Write>(&self, f: &mut fmt::Formatter<W>) -> fmt::Result {
        match self.0 {
            Value::Unsigned(number) => write!(f, "{number}"),
            Value::Signed(number) => write!(f, "{number}"),
            Value::Decimal(mantissa, decimals) => write!(f, "{mantissa}e-{decimals}"),
            Value::Text(characters) => write!(f, "{}", Hex(characters)),
            Value::Investor((prefix, document)) => write!(f, "{prefix}/{document}"),
        }
    }
}

// What a field holds: a value, or a dash where it is absent.
#[derive(Clone, Copy)]
pub struct Content<'a>(pub Option<Value<'a>>);

impl fmt::Display for Content<'_> {
    ghost output = { λ x. Some (written_value (meant_by x.0)) };

    fn fmt<W: fmt::Write>(&self, f: &mut fmt::Formatter<W>) -> fmt::Result {
        match self.0 {
            None => f.write_str("-"),
            Some(value) => write!(f, "{}", Plain(value)),
        }
    }
}

// Of a refused dictionary the place and the number of the refusal.
#[derive(Clone, Copy)]
pub struct PlaceAndNumber(pub Refusal);

impl fmt::Display for PlaceAndNumber {
    ghost output = { λ x. Some (place_and_number x.0) };

    fn fmt<W: fmt::Write>(&self, f: &mut fmt::Formatter<W>) -> fmt::Result {
        write!(f, "{} {}", self.0.place, self.0.reason.number())
    }
}

// Values of fields.
ghost use Rattle.std.specs.Prelude.{◌≡◌};

// A value, as it goes into a field or comes out of one. That a field is absent is no value.
#[derive(Clone, Copy)]
pub enum Value<'a> {
    Unsigned(u64),
    Signed(i64),
    Decimal(i64, u8),
    Text(&'a [u8]),
    Investor((u16, u32)),
}

// The functions name the kind of value; From is no plainer, the type of a literal would then choose the kind.
impl<'a> Value<'a> {
    pub fn unsigned(n: u64) -> Value<'a>
        ensures { result ≡ Value.Unsigned n }
    {
        Value::Unsigned(n)
    }

    pub fn signed(n: i64) -> Value<'a>
        ensures { result ≡ Value.Signed n }
    {
        Value::Signed(n)
    }

    // A mantissa and how many of its digits are decimals.
    pub fn decimal(mantissa: i64, decimals: u8) -> Value<'a>
        ensures { result ≡ Value.Decimal mantissa decimals }
    {
        Value::Decimal(mantissa, decimals)
    }

    pub fn text(characters: &'a [u8]) -> Value<'a>
        ensures { result ≡ Value.Text characters.entry }
    {
        Value::Text(characters)
    }

    // A prefix and a document.
    pub fn investor(pair: (u16, u32)) -> Value<'a>
        ensures { result ≡ Value.Investor pair }
    {
        Value::Investor(pair)
    }
}

// Patterns of investors.
ghost use Rattle.std.specs.Prelude.{◌≡◌, ◌∷◌, ◌++◌, Some};
ghost use Rattle.wire.specs.Numbers.{le_bytes};
ghost use Rattle.types.specs.Meanings.{meaning};
ghost use Rattle.types.specs.Answers.{meant, patterned, read_of, pattern_of};
ghost use Rattle.text.specs.Investors.{investor_kind};

use types::{Pattern, Value};
use wire::{Reason, Refusal};

// The width of an investor.
pub(crate) const INVESTOR_WIDTH: usize = 8;

// The bytes of an investor: the prefix, two zeros, the document.
fn investor_bytes(prefix: u16, document: u32) -> [u8; 8]
    ensures { result ≡ le_bytes 2 prefix ++ (0 ∷ 0 ∷ le_bytes 4 document) }
{
    let p = prefix.to_le_bytes();
    let d = document.to_le_bytes();
    [p[0], p[1], 0, 0, d[0], d[1], d[2], d[3]]
}

// What the bytes mean as an investor.
pub(crate) fn read_investor<'a>(bytes: &'a [u8]) -> Result<Option<Value<'a>>, Refusal>
    ensures { meant result ≡ read_of (Some investor_kind) bytes.now }
{
    let [p0, p1, 0, 0, d0, d1, d2, d3] = *bytes else {
        return Err(Reason::NoPattern.plain());
    };
    let prefix = u16::from_le_bytes([p0, p1]);
    let document = u32::from_le_bytes([d0, d1, d2, d3]);
    if prefix == 0 && document == 0 {
        return Ok(None);
    }
    Ok(Some(Value::investor((prefix, document))))
}

// The pattern of a value at an investor; only an investor has one, and not that of nobody.
pub(crate) fn write_investor(value: Value<'_>) -> Result<Pattern, Refusal>
    ensures { patterned result ≡ pattern_of (Some investor_kind) (meaning value.entry) }
{
    match value {
        Value::Investor((prefix, document)) if prefix > 0 || document > 0 => {
            Ok(Pattern::of(&investor_bytes(prefix, document)))
        }
        _ => Err(Reason::NoSuchValue.plain()),
    }
}

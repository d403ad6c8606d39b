// A list of calls in bytes. Their kinds and those of values are numbers there, since they come from another program.
ghost use Rattle.std.specs.Prelude.{◌≤◌, length};

use crate::taken::Taken;
use replay::Call;
use types::Value;

// A call on a form, or a byte that is put into the buffer from outside.
#[derive(Clone, Copy)]
pub enum Asked<'a> {
    Call(Call<'a>),
    Poke { place: u16, byte: u8 },
}

// A value: its kind, and what that holds.
fn value<'a>(from: &mut Taken<'a>) -> Option<Value<'a>>
    ensures { length from.new.rest.now ≤ length from.old.rest.now }
{
    match u8::from_le_bytes(from.array()?) {
        1 => Some(Value::Unsigned(u64::from_le_bytes(from.array()?))),
        2 => Some(Value::Signed(i64::from_le_bytes(from.array()?))),
        3 => {
            let mantissa = i64::from_le_bytes(from.array()?);
            let decimals = u8::from_le_bytes(from.array()?);
            Some(Value::Decimal(mantissa, decimals))
        }
        4 => Some(Value::Text(from.bytes()?)),
        5 => {
            let prefix = u16::from_le_bytes(from.array()?);
            let document = u32::from_le_bytes(from.array()?);
            Some(Value::Investor((prefix, document)))
        }
        _ => None,
    }
}

// The call of a number: what stands behind that.
fn call<'a>(number: u8, from: &mut Taken<'a>) -> Option<Call<'a>>
    ensures { length from.new.rest.now ≤ length from.old.rest.now }
{
    match number {
        1 => Some(Call::Open {
            template: u16::from_le_bytes(from.array()?),
            version: u16::from_le_bytes(from.array()?),
        }),
        2 => Some(Call::Set {
            group: u32::from_le_bytes(from.array()?),
            entry: usize::from_le_bytes(from.array()?),
            tag: u32::from_le_bytes(from.array()?),
            value: value(from)?,
        }),
        3 => Some(Call::Clear {
            group: u32::from_le_bytes(from.array()?),
            entry: usize::from_le_bytes(from.array()?),
            tag: u32::from_le_bytes(from.array()?),
        }),
        4 => Some(Call::Append {
            group: u32::from_le_bytes(from.array()?),
        }),
        5 => Some(Call::Drop {
            group: u32::from_le_bytes(from.array()?),
        }),
        6 => Some(Call::Write {
            tag: u32::from_le_bytes(from.array()?),
            content: from.bytes()?,
        }),
        7 => Some(Call::Close),
        8 => Some(Call::Reopen),
        _ => None,
    }
}

// A byte and the place where it is put.
fn poke<'a>(from: &mut Taken<'a>) -> Option<Asked<'a>>
    ensures { length from.new.rest.now ≤ length from.old.rest.now }
{
    let place = u16::from_le_bytes(from.array()?);
    let byte = u8::from_le_bytes(from.array()?);
    Some(Asked::Poke { place, byte })
}

// What is asked next: its number, and what stands behind that.
pub fn next_asked<'a>(from: &mut Taken<'a>) -> Option<Asked<'a>>
    ensures { length from.new.rest.now ≤ length from.old.rest.now }
{
    match u8::from_le_bytes(from.array()?) {
        9 => poke(from),
        number => Some(Asked::Call(call(number, from)?)),
    }
}

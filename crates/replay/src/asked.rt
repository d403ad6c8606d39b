// Calls on a form, and what is answered to them.
ghost use Rattle.std.specs.Prelude.{◌≡◌, false};
ghost use Rattle.types.specs.Meanings.{Sayable, meaning};
ghost use Rattle.message.specs.Blocks.{is_absent};
ghost use Rattle.calls.specs.Calls.{SayableCall};
ghost use Rattle.replay.specs.Shown.{shown_call, answer_to};

use types::Value;
use wire::{Refusal, seen};

// A call on a form, with all that it is given.
#[derive(Clone, Copy)]
pub enum Call<'a> {
    // Begins a new message, whether there is a form or not.
    Open {
        template: u16,
        version: u16,
    },
    Set {
        group: u32,
        entry: usize,
        tag: u32,
        value: Value<'a>,
    },
    Clear {
        group: u32,
        entry: usize,
        tag: u32,
    },
    Append {
        group: u32,
    },
    Drop {
        group: u32,
    },
    Write {
        tag: u32,
        content: &'a [u8],
    },
    Close,
    Reopen,
}

// What is answered to a call. One that the form cannot take as it stands, open or closed, is out of turn and not made.
#[derive(Clone, Copy)]
pub enum Answer {
    Accepted,
    Refused(Refusal),
    OutOfTurn,
}

// The answer to a call that is made.
impl From<Result<(), Refusal>> for Answer {
    ghost from_gives = { λ made said. said ≡ answer_to made };

    fn from(made: Result<(), Refusal>) -> Answer {
        match made {
            Ok(()) => Answer::Accepted,
            Err(e) => Answer::Refused(e),
        }
    }
}

// Does nothing: its caller learns that a value is one, and that its numbers fit and a text of it is bytes.
fn sayable_value(value: Value<'_>)
    ensures says { Sayable (meaning value.entry) }
    ensures is { is_absent (meaning value.entry) ≡ false }
{
    match value {
        Value::Text(characters) => seen(characters),
        _ => {}
    }
}

// Does nothing: its caller learns that the numbers of a call fit, that a value is one, and that data are bytes.
pub(crate) fn sayable(call: Call<'_>)
    ensures { SayableCall (shown_call call.entry) }
{
    match call {
        Call::Set { value, .. } => sayable_value(value),
        Call::Write { content, .. } => seen(content),
        _ => {}
    }
}

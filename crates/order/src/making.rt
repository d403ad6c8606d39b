// The calls of a script, made on the form and the buffer.
ghost use Rattle.std.specs.Prelude.{◌≡◌};
ghost use Rattle.std.specs.Option.{option_map};
ghost use Rattle.types.specs.Meanings.{meaning};
ghost use Rattle.replay.specs.Shown.{shown_call};
ghost use Rattle.order.specs.Said.{given_meaning, said_call, command_digits};

use crate::command::{Command, Given, read_command};
use crate::shown::{Line, accepted_line, bad_line};
use crate::words::unhex;
use base::BASE;
use replay::{Answer, Call, Form, make};
use std::alloc::Global;
use types::Value;
use wire::upto;

// How long the buffer is until the script names another.
const USUAL_BUFFER: usize = 16384;

// How many bytes of the script are looked at.
pub(crate) const LONGEST: usize = 65536;

// What ends a line.
const LINE_FEED: u8 = b'\n';

// A value, with the bytes that its digits are.
fn value_of<'a>(given: Given<'_>, bytes: &'a [u8]) -> Value<'a>
    ensures { meaning result ≡ given_meaning given.entry bytes.now }
{
    match given {
        Given::Unsigned(n) => Value::Unsigned(n),
        Given::Signed(n) => Value::Signed(n),
        Given::Decimal(mantissa, decimals) => Value::Decimal(mantissa, decimals),
        Given::Text { .. } => Value::Text(bytes),
        Given::Investor(prefix, document) => Value::Investor((prefix, document)),
    }
}

// The call that a command is, with the bytes that its digits are; None where it is about the buffer.
fn call_of<'a>(command: Command<'_>, bytes: &'a [u8]) -> Option<Call<'a>>
    ensures { option_map shown_call result ≡ said_call command.entry bytes.now }
{
    match command {
        Command::Zeros { .. } | Command::Bytes { .. } | Command::Show => None,
        Command::Open { template, version } => Some(Call::Open { template, version }),
        Command::Set {
            group,
            entry,
            tag,
            value,
        } => Some(Call::Set {
            group,
            entry,
            tag,
            value: value_of(value, bytes),
        }),
        Command::Clear { group, entry, tag } => Some(Call::Clear { group, entry, tag }),
        Command::Append { group } => Some(Call::Append { group }),
        Command::Drop { group } => Some(Call::Drop { group }),
        Command::Write { tag, .. } => Some(Call::Write {
            tag,
            content: bytes,
        }),
        Command::Close => Some(Call::Close),
        Command::Reopen => Some(Call::Reopen),
    }
}

// The digits of a command.
fn digits_of<'a>(command: Command<'a>) -> &'a [u8]
    ensures { result.now ≡ command_digits command.entry }
{
    match command {
        Command::Bytes { digits } => digits,
        Command::Set {
            value: Given::Text { digits },
            ..
        } => digits,
        Command::Write { digits, .. } => digits,
        _ => &[],
    }
}

// How long the frame is that a call has closed, where it has.
fn closed_length(call: Call<'_>, answer: Answer, form: &Form) -> Option<usize> {
    match (call, answer, form) {
        (Call::Close, Answer::Accepted, Form::Closed(held)) => Some(held.length()),
        _ => None,
    }
}

// Prints the answer to a call, and the frame that it has closed.
fn print_answer(
    rt: &HostRuntime,
    buffer: &[u8],
    answer: Answer,
    closed: Option<usize>,
) -> anyhow::Result<()> {
    rt.println(Line::from(answer))?;
    if let Some(length) = closed {
        let bytes = upto(buffer, length);
        rt.println(Line::Frame { bytes })?;
    }
    Ok(())
}

// The bytes of a new buffer.
fn zeros(heap: Global, length: usize) -> anyhow::Result<Vec<u8>> {
    Ok(vec![in heap; 0; length]?)
}

// The form, let go where an error ends the program.
fn kept(form: Form, done: anyhow::Result<()>) -> anyhow::Result<Form> {
    match done {
        Ok(()) => Ok(form),
        Err(e) => {
            form.abandon();
            Err(e)
        }
    }
}

// The handle, the buffer and the form stay parameters: the form is moved through each turn, and a struct of them would be taken apart in each.

// Takes up a new buffer, and lets the form go.
fn take_up(
    rt: &HostRuntime,
    buffer: &mut Vec<u8>,
    form: Form,
    made: anyhow::Result<Vec<u8>>,
) -> anyhow::Result<Form> {
    form.abandon();
    *buffer = made?;
    rt.println(accepted_line())?;
    Ok(Form::None)
}

// Makes a call, and prints what is answered.
fn call_turn(
    rt: &HostRuntime,
    dictionary: &[u8],
    buffer: &mut [u8],
    form: Form,
    call: Call<'_>,
) -> anyhow::Result<Form> {
    let (left, answer) = make(dictionary, &BASE, buffer, form, call);
    let closed = closed_length(call, answer, &left);
    kept(left, print_answer(rt, buffer, answer, closed))
}

// Prints the whole buffer.
fn show(rt: &HostRuntime, bytes: &[u8]) -> anyhow::Result<()> {
    rt.println(Line::Buffer { bytes })?;
    Ok(())
}

// Does what a command about the buffer says, or shows it; `bytes` are those that its digits are.
fn buffer_turn(
    rt: &HostRuntime,
    buffer: &mut Vec<u8>,
    form: Form,
    command: Command<'_>,
    bytes: Vec<u8>,
) -> anyhow::Result<Form> {
    match command {
        Command::Zeros { length } => take_up(rt, buffer, form, zeros(rt.alloc(), length)),
        Command::Bytes { .. } => take_up(rt, buffer, form, Ok(bytes)),
        _ => kept(form, show(rt, buffer.as_slice())),
    }
}

// Does what a command says.
fn command_turn(
    rt: &HostRuntime,
    dictionary: &[u8],
    buffer: &mut Vec<u8>,
    form: Form,
    command: Command<'_>,
) -> anyhow::Result<Form> {
    match unhex(rt.alloc(), digits_of(command)) {
        Ok(bytes) => match call_of(command, bytes.as_slice()) {
            Some(call) => call_turn(rt, dictionary, buffer.as_mut_slice(), form, call),
            None => buffer_turn(rt, buffer, form, command, bytes),
        },
        Err(e) => {
            form.abandon();
            Err(e.into())
        }
    }
}

// What a line says that lies within the bytes that are looked at: None where it is no call, or goes on behind them.
fn line_command<'a>(line: &'a [u8], left: &mut usize) -> Option<Command<'a>> {
    *left = left.checked_sub(line.len())?;
    read_command(line.strip_suffix(&[LINE_FEED]).unwrap_or(line))
}

// Does what the script says, line by line. A line that is no call ends it, and so does one that goes on behind the bytes that are looked at.
pub(crate) fn play(rt: &HostRuntime, dictionary: &[u8], script: &[u8]) -> anyhow::Result<()> {
    let mut buffer = zeros(rt.alloc(), USUAL_BUFFER)?;
    let mut form = Form::None;
    let mut left = LONGEST;
    for (index, line) in script.split_inclusive(|b| *b == LINE_FEED).enumerate() {
        let Some(command) = line_command(line, &mut left) else {
            form.abandon();
            rt.println(bad_line(index.saturating_add(1)))?;
            return Ok(());
        };
        form = command_turn(rt, dictionary, &mut buffer, form, command)?;
    }
    form.abandon();
    Ok(())
}

// What a line of the script says.
use crate::words::{Cut, cut_at, is_hex, number, number_in};

// No buffer is longer.
const LONGEST_BUFFER: u64 = 65536;

// What parts the words of a line.
const BLANK: u8 = b' ';

// A value as it is written: of a text the digits of its bytes.
#[derive(Clone, Copy)]
pub(crate) enum Given<'a> {
    Unsigned(u64),
    Signed(i64),
    Decimal(i64, u8),
    Text { digits: &'a [u8] },
    Investor(u16, u32),
}

// A line of the script; bytes are the digits that they are written in. Digits are no bytes before the heap has made them, so a command is no call with another content.
#[derive(Clone, Copy)]
pub(crate) enum Command<'a> {
    // A new buffer of zeros.
    Zeros {
        length: usize,
    },
    // A new buffer with these bytes.
    Bytes {
        digits: &'a [u8],
    },
    Open {
        template: u16,
        version: u16,
    },
    Set {
        group: u32,
        entry: usize,
        tag: u32,
        value: Given<'a>,
    },
    Clear {
        group: u32,
        entry: usize,
        tag: u32,
    },
    Append {
        group: u32,
    },
    Drop {
        group: u32,
    },
    Write {
        tag: u32,
        digits: &'a [u8],
    },
    Close,
    Reopen,
    Show,
}

// The next word, where there is one.
fn next_word<'a>(rest: Option<&'a [u8]>) -> Option<Cut<'a>> {
    Some(cut_at(rest?, BLANK))
}

// Nothing stands behind the last word.
fn ended(rest: Option<&[u8]>) -> Option<()> {
    rest.is_none().then_some(())
}

// The last word of a line.
fn last_word<'a>(rest: Option<&'a [u8]>) -> Option<&'a [u8]> {
    let Cut { word, rest } = next_word(rest)?;
    ended(rest)?;
    Some(word)
}

// The digits behind `x:`.
fn marked_digits(word: &[u8]) -> Option<&[u8]> {
    match word {
        [b'x', b':', digits @ ..] if is_hex(digits) => Some(digits),
        _ => None,
    }
}

// The digits of the bytes of a data; a dash says that it has none.
fn data_digits(word: &[u8]) -> Option<&[u8]> {
    match word {
        [] => None,
        b"-" => Some(&[]),
        _ => is_hex(word).then_some(word),
    }
}

// A number that is not negative.
fn positive(word: &[u8]) -> Option<i64> {
    i64::try_from(number(word)?).ok()
}

// The negative of a number.
fn negative(word: &[u8]) -> Option<i64> {
    0i64.checked_sub_unsigned(number(word)?)
}

// A number with a sign or without.
fn mantissa(word: &[u8]) -> Option<i64> {
    match word {
        [b'+', digits @ ..] => positive(digits),
        [b'-', digits @ ..] => negative(digits),
        _ => positive(word),
    }
}

// How many decimals, behind the `-` of `e-`.
fn decimals(word: &[u8]) -> Option<u8> {
    match word {
        [b'-', digits @ ..] => number_in(digits),
        _ => None,
    }
}

// A value of numbers.
fn number_value(word: &[u8]) -> Option<Given<'_>> {
    let Cut {
        word: prefix,
        rest: document,
    } = cut_at(word, b'/');
    if let Some(document) = document {
        return Some(Given::Investor(number_in(prefix)?, number_in(document)?));
    }
    let Cut { word: whole, rest } = cut_at(word, b'e');
    if let Some(places) = rest {
        return Some(Given::Decimal(mantissa(whole)?, decimals(places)?));
    }
    match word {
        [b'+' | b'-', ..] => Some(Given::Signed(mantissa(word)?)),
        _ => Some(Given::Unsigned(number(word)?)),
    }
}

fn value(word: &[u8]) -> Option<Given<'_>> {
    match marked_digits(word) {
        Some(digits) => Some(Given::Text { digits }),
        None => number_value(word),
    }
}

// A group, an entry and a tag, and what stands behind them.
#[derive(Clone, Copy)]
struct Spot<'a> {
    group: u32,
    entry: usize,
    tag: u32,
    rest: Option<&'a [u8]>,
}

fn read_spot<'a>(rest: Option<&'a [u8]>) -> Option<Spot<'a>> {
    let first = next_word(rest)?;
    let second = next_word(first.rest)?;
    let third = next_word(second.rest)?;
    Some(Spot {
        group: number_in(first.word)?,
        entry: number(second.word)? as usize,
        tag: number_in(third.word)?,
        rest: third.rest,
    })
}

fn buffer<'a>(rest: Option<&'a [u8]>) -> Option<Command<'a>> {
    let word = last_word(rest)?;
    if let Some(digits) = marked_digits(word) {
        return Some(Command::Bytes { digits });
    }
    let length = number(word)?;
    (length <= LONGEST_BUFFER).then_some(Command::Zeros {
        length: length as usize,
    })
}

fn open<'a>(rest: Option<&'a [u8]>) -> Option<Command<'a>> {
    let first = next_word(rest)?;
    Some(Command::Open {
        template: number_in(first.word)?,
        version: number_in(last_word(first.rest)?)?,
    })
}

fn set<'a>(rest: Option<&'a [u8]>) -> Option<Command<'a>> {
    let Spot {
        group,
        entry,
        tag,
        rest,
    } = read_spot(rest)?;
    Some(Command::Set {
        group,
        entry,
        tag,
        value: value(last_word(rest)?)?,
    })
}

fn clear<'a>(rest: Option<&'a [u8]>) -> Option<Command<'a>> {
    let Spot {
        group,
        entry,
        tag,
        rest,
    } = read_spot(rest)?;
    ended(rest)?;
    Some(Command::Clear { group, entry, tag })
}

// A group, as the last word of a line.
fn last_group(rest: Option<&[u8]>) -> Option<u32> {
    number_in(last_word(rest)?)
}

fn write<'a>(rest: Option<&'a [u8]>) -> Option<Command<'a>> {
    let first = next_word(rest)?;
    Some(Command::Write {
        tag: number_in(first.word)?,
        digits: data_digits(last_word(first.rest)?)?,
    })
}

// A command that is one word.
fn alone<'a>(command: Command<'a>, rest: Option<&'a [u8]>) -> Option<Command<'a>> {
    ended(rest)?;
    Some(command)
}

// What a line says, without its line feed: None where it is no command.
pub(crate) fn read_command(line: &[u8]) -> Option<Command<'_>> {
    let Cut { word, rest } = cut_at(line, BLANK);
    match word {
        b"buffer" => buffer(rest),
        b"open" => open(rest),
        b"set" => set(rest),
        b"clear" => clear(rest),
        b"append" => Some(Command::Append {
            group: last_group(rest)?,
        }),
        b"drop" => Some(Command::Drop {
            group: last_group(rest)?,
        }),
        b"write" => write(rest),
        b"close" => alone(Command::Close, rest),
        b"reopen" => alone(Command::Reopen, rest),
        b"show" => alone(Command::Show, rest),
        _ => None,
    }
}

// The words of a line, and the numbers and bytes that are written in them.
ghost use Rattle.std.specs.Prelude.{◌≡◌, ℕ, ◌+◌, ◌-◌, ◌^◌, ◌≤◌, ◌==◌, position, length, take, drop, cond, Some, None, IfOk, IfSome};
ghost use Rattle.std.specs.Option.{option_map};
ghost use Rattle.order.specs.Words.{place_of, below, number_of, is_digit, is_nibble, nibble, is_hex, bytes_of};

use std::alloc::{AllocError, Global};

// Where a byte stands for the first time, if it is there.
fn first_place(bytes: &[u8], sought: u8) -> Option<usize>
    ensures { result ≡ position (λ b. b == sought) bytes.now }
{
    bytes.iter().position(|b| *b == sought)
}

// Where a byte stands for the first time, or how many bytes there are.
fn place_of(bytes: &[u8], sought: u8) -> usize
    ensures value { result ≡ place_of sought bytes.now }
    ensures bound { result ≤ length bytes.now }
{
    first_place(bytes, sought).unwrap_or(bytes.len())
}

// What stands before a byte, and what stands behind it: None where there is no such byte.
#[derive(Clone, Copy)]
pub(crate) struct Cut<'a> {
    pub(crate) word: &'a [u8],
    pub(crate) rest: Option<&'a [u8]>,
}

// Cuts where a byte stands for the first time.
pub(crate) fn cut_at(bytes: &[u8], sought: u8) -> Cut<'_>
    ensures word { result.word.now ≡ take (place_of sought bytes.now) bytes.now }
    ensures rest { IfSome result.rest (λ x. x.now ≡ drop (place_of sought bytes.now + 1) bytes.now) }
{
    let end = place_of(bytes, sought);
    Cut {
        word: &bytes[..end],
        rest: bytes.get(end + 1..),
    }
}

// What a decimal digit is.
fn digit(b: u8) -> Option<u8>
    ensures { result ≡ cond (is_digit b) (Some (b - 48)) None }
{
    match b {
        b'0'..=b'9' => Some(b - b'0'),
        _ => None,
    }
}

// The number that a word of decimal digits is, below 2 ^ 64.
pub(crate) fn number(word: &[u8]) -> Option<u64>
    ensures { result ≡ number_of word.now }
{
    if word.is_empty() {
        return None;
    }
    let mut n: u64 = 0;
    for b in word {
        n = n.checked_mul(10)?.checked_add(u64::from(digit(*b)?))?;
    }
    Some(n)
}

// A type of whole numbers below a limit. TryFrom has no word for a type's limit, which the contract needs.
pub(crate) trait Whole: Sized {
    ghost limit: { ℕ };

    ghost whole: { Self → ℕ };

    // The number in this type, if it is below the limit.
    fn of(n: u64) -> Option<Self>
        ensures { option_map whole result ≡ below limit (Some n) };
}

impl Whole for u8 {
    ghost limit = { 2 ^ 8 };

    ghost whole = { λ n. n };

    fn of(n: u64) -> Option<u8> {
        u8::try_from(n).ok()
    }
}

impl Whole for u16 {
    ghost limit = { 2 ^ 16 };

    ghost whole = { λ n. n };

    fn of(n: u64) -> Option<u16> {
        u16::try_from(n).ok()
    }
}

impl Whole for u32 {
    ghost limit = { 2 ^ 32 };

    ghost whole = { λ n. n };

    fn of(n: u64) -> Option<u32> {
        u32::try_from(n).ok()
    }
}

// The number that a word of decimal digits is, below the limit of a type.
pub(crate) fn number_in<T: Whole>(word: &[u8]) -> Option<T>
    ensures { option_map T.whole result ≡ below T.limit (number_of word.now) }
{
    T::of(number(word)?)
}

// What a digit in hexadecimal is, letters in capitals.
fn nibble(b: u8) -> Option<u8>
    ensures value { result ≡ cond (is_nibble b) (Some (nibble b)) None }
    ensures bound { IfSome result (λ n. n ≤ 15) }
{
    match b {
        b'A'..=b'F' => Some(b - b'A' + 10),
        _ => digit(b),
    }
}

// Whether a word is bytes in hexadecimal, two digits each: a digit that is left over makes it none.
pub(crate) fn is_hex(word: &[u8]) -> bool
    ensures { result ≡ is_hex word.now }
{
    word.len() % 2 == 0 && word.iter().all(|b| nibble(*b).is_some())
}

// The bytes that such a word is. Tried with `as_chunks::<2>()`; the proof didn't close.
pub(crate) fn unhex(heap: Global, word: &[u8]) -> Result<Vec<u8>, AllocError>
    ensures { IfOk result (λ v. v.items ≡ bytes_of word.now) }
{
    let mut bytes = Vec::new(heap);
    let mut left = word;
    while let [high, low, rest @ ..] = left {
        bytes.push(16 * nibble(*high).unwrap_or(0) + nibble(*low).unwrap_or(0))?;
        left = rest;
    }
    Ok(bytes)
}

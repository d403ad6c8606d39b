// Bytes out of hexadecimal, and changes of bytes.
use crate::answers::number_of;
use std::alloc::{AllocError, Global};

// A digit in hexadecimal; 0 for what is none.
fn digit(c: char) -> u8 {
    c.to_digit(16)
        .and_then(|n| u8::try_from(n).ok())
        .unwrap_or(0)
}

// Puts the bytes of a word in hexadecimal, two characters to a byte. Here what is no digit counts as 0.
fn put_hex(bytes: &mut Vec<u8>, word: &str) -> Result<(), AllocError> {
    let mut high = None;
    for c in word.chars() {
        high = match high {
            None => Some(digit(c)),
            Some(first) => {
                bytes.push(digit(c) | first << 4)?;
                None
            }
        };
    }
    Ok(())
}

// The bytes of words in hexadecimal.
pub fn bytes_of(heap: Global, words: &str) -> Result<Vec<u8>, AllocError> {
    let mut bytes = Vec::new(heap);
    for word in words.split_whitespace() {
        put_hex(&mut bytes, word)?;
    }
    Ok(bytes)
}

fn put_zeros(bytes: &mut Vec<u8>, count: usize) -> Result<(), AllocError> {
    bytes.resize(bytes.len().saturating_add(count), 0)
}

// Keeps the first bytes, or puts more behind them.
fn resize(bytes: &mut Vec<u8>, word: &str) -> Result<(), AllocError> {
    if let Some(hex) = word.strip_prefix("+") {
        return put_hex(bytes, hex);
    }
    match word.split_once("=") {
        Some(("keep", count)) => bytes.truncate(number_of(Some(count))),
        Some(("zeros", count)) => put_zeros(bytes, number_of(Some(count)))?,
        _ => {}
    }
    Ok(())
}

// Puts a byte at a place.
fn set(bytes: &mut Vec<u8>, place: usize, byte: u8) {
    if let Some(old) = bytes.get_mut(place) {
        *old = byte;
    }
}

// Changes the byte that the word says, if it says one.
fn change(bytes: &mut Vec<u8>, word: &str) {
    if let Some((place, byte)) = word.split_once("=") {
        if let Ok(n) = place.parse::<usize>() {
            set(bytes, n, u8::from_str_radix(byte, 16).unwrap_or(0));
        }
    }
}

// The frame after the changes: its size, then the length that it states, then single bytes.
pub fn edited_frame(heap: Global, frame: &[u8], words: &str) -> Result<Vec<u8>, AllocError> {
    let mut bytes = frame.to_vec(heap)?;
    for word in words.split_whitespace() {
        resize(&mut bytes, word)?;
    }
    let stated = u16::try_from(bytes.len()).unwrap_or(u16::MAX).to_le_bytes();
    set(&mut bytes, 0, stated[0]);
    set(&mut bytes, 1, stated[1]);
    for word in words.split_whitespace() {
        change(&mut bytes, word);
    }
    Ok(bytes)
}

// The dictionary after the changes that have a d in front.
pub fn edited_dictionary(
    heap: Global,
    dictionary: &[u8],
    words: &str,
) -> Result<Vec<u8>, AllocError> {
    let mut bytes = dictionary.to_vec(heap)?;
    for word in words.split_whitespace() {
        if let Some(rest) = word.strip_prefix("d") {
            resize(&mut bytes, rest)?;
            change(&mut bytes, rest);
        }
    }
    Ok(bytes)
}

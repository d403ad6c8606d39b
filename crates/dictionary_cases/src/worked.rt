// The worked dictionary of 100 bytes, and changes of it.
use std::alloc::{AllocError, Global};

// Template 7 at place 7; fields 11, 54, 110 and 35121 at places 15, 28, 42 and 55; group 78 at 68 with field 80 at 76 and its end at 89; data 5149 at 91.
pub const WORKED: &[u8; 100] = b"\
    \x01\x00\x64\x00\x01\x00\x06\
    \x00\x5D\x00\x07\x00\x00\x00\x0C\
    \x0D\x01\x00\x00\x00\x0B\x00\x00\x00\x00\x03\x01\x02\
    \x0E\x01\x00\x00\x00\x36\x00\x04\x00\x00\x07\x01\x31\x32\
    \x0D\x01\x00\x00\x00\x6E\x00\x06\x00\x00\x02\x00\x01\
    \x0D\x01\x00\x00\x89\x31\x00\x08\x00\x05\x03\x00\x01\
    \x08\x02\x00\x00\x00\x4E\x00\x02\
    \x0D\x01\x00\x00\x00\x50\x00\x00\x00\x00\x02\x01\x00\
    \x02\x03\
    \x09\x04\x00\x00\x14\x1D\x00\x00\x32";

// A label, bytes of the worked dictionary that are changed, each with its place, and bytes that follow.
#[derive(Clone, Copy)]
pub struct Changed(
    pub &'static str,
    pub &'static [(usize, u8)],
    pub &'static [u8],
);

// The byte that a place has after the changes.
fn byte_at(changes: &[(usize, u8)], place: usize, byte: u8) -> u8 {
    changes
        .iter()
        .rev()
        .find(|(at, _)| *at == place)
        .map_or(byte, |(_, new)| *new)
}

// The worked dictionary after the changes, and then more bytes.
pub fn bytes_after(
    heap: Global,
    changes: &[(usize, u8)],
    more: &[u8],
) -> Result<Vec<u8>, AllocError> {
    let mut bytes = Vec::new(heap);
    for (place, byte) in WORKED.iter().enumerate() {
        bytes.push(byte_at(changes, place, *byte))?;
    }
    bytes.extend_from_slice(more)?;
    Ok(bytes)
}

// Streams to cut.
use crate::answers::{show_cut, show_long_cut};
use wire::part;

const STREAMS: [&[u8]; 21] = [
    &[],
    &[0x0C],
    &[0x0C, 0x00, 0x50],
    &[0xFF, 0xFF, 0xFF],
    &[0x0C, 0x00, 0x50, 0xEB],
    b"\x0C\0\x50\xEB\0\0\x07\0\x01\0\x06",
    b"\x0C\0\x50\xEB\0\0\x07\0\x01\0\x06\0",
    b"\x0C\0\x50\xEB\0\0\x07\0\x01\0\x06\0\xFF",
    b"\x0C\0\x50\xEB\0\0\x07\0\x01\0\x06\0\x0C\0\x50\xEB",
    &[0x0B, 0x00, 0x50, 0xEB],
    &[0x00, 0x00, 0x50, 0xEB],
    &[0x0D, 0x00, 0x50, 0xEB],
    &[0xFF, 0x3F, 0x50, 0xEB],
    &[0x00, 0x40, 0x50, 0xEB],
    &[0x01, 0x40, 0x50, 0xEB],
    &[0xFF, 0xFF, 0x50, 0xEB],
    &[0x0C, 0x00, 0x51, 0xEB],
    &[0x0C, 0x00, 0x50, 0xEA],
    &[0x0C, 0x00, 0xEB, 0x50],
    &[0x0B, 0x00, 0x51, 0xEB],
    &[0x01, 0x40, 0x00, 0x00],
];

// The length of the longest frame.
const LONGEST: usize = 16384;

// The first four bytes of the longest frame.
const LONGEST_FRONT: [u8; 4] = [0x00, 0x40, 0x50, 0xEB];

// The longest frame, one byte less of it, and one byte behind it.
fn long(rt: &HostRuntime) -> anyhow::Result<()> {
    let mut stream = Vec::new(rt.alloc());
    stream.extend_from_slice(&LONGEST_FRONT)?;
    stream.resize(LONGEST + 1, 0)?;
    show_long_cut(rt, part(stream.as_slice(), 0, LONGEST - 1), LONGEST)?;
    show_long_cut(rt, part(stream.as_slice(), 0, LONGEST), LONGEST)?;
    show_long_cut(rt, stream.as_slice(), LONGEST)?;
    Ok(())
}

pub(crate) fn run(rt: &HostRuntime) -> anyhow::Result<()> {
    for stream in &STREAMS {
        show_cut(rt, *stream)?;
    }
    long(rt)
}

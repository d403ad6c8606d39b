// Single examples of values and bytes.
use crate::answers::{show_read, show_write};
use crate::known::{CODES_32, CODES_33};
use std::io;
use types::{TypeLibrary, Value};

// A type by number and argument. The rows of the tables are tuples: with named fields each would take five lines.
type Type = (u8, &'static [u8]);

// The number and the argument of a type, and bytes to read.
type Read = (u8, &'static [u8], &'static [u8]);

// The number and the argument of a type, and a value to write.
type Write = (u8, &'static [u8], Value<'static>);

// The type's own decimals and others.
const DECIMALS: [Write; 10] = [
    (8, &[0, 0], Value::Decimal(1000200, 0)),
    (8, &[0, 0], Value::Decimal(1000200, 1)),
    (8, &[0, 0], Value::Decimal(0, 1)),
    (8, &[0, 4], Value::Decimal(1000200, 4)),
    (8, &[0, 4], Value::Decimal(1000200, 0)),
    (8, &[0, 4], Value::Decimal(10002000, 5)),
    (8, &[0, 9], Value::Decimal(-5, 9)),
    (8, &[0, 9], Value::Decimal(-5, 8)),
    (8, &[0, 9], Value::Decimal(5, 10)),
    (8, &[0, 10], Value::Decimal(5, 10)),
];

// Bytes that are too few or too many.
const SIZES: [Read; 23] = [
    (1, &[0], &[]),
    (1, &[0], &[0x00, 0x00]),
    (2, &[0], &[0x00]),
    (2, &[0], &[0x00, 0x00, 0x00]),
    (3, &[0], &[0x00, 0x00, 0x00]),
    (3, &[0], &[0x00, 0x00, 0x00, 0x00, 0x00]),
    (4, &[0], &[0x00, 0x00, 0x00, 0x00, 0x00, 0x00, 0x00]),
    (4, &[0], b"\0\0\0\0\0\0\0\0\0"),
    (5, &[0], &[0x00, 0x00, 0x00]),
    (5, &[0], &[0x00, 0x00, 0x00, 0x00, 0x00]),
    (6, &[0], &[0x00, 0x00, 0x00, 0x00, 0x00, 0x00, 0x00]),
    (6, &[0], b"\0\0\0\0\0\0\0\0\0"),
    (8, &[0, 2], &[0x00, 0x00, 0x00, 0x00, 0x00, 0x00, 0x00]),
    (8, &[0, 2], b"\0\0\0\0\0\0\0\0\0"),
    (7, b"1", &[]),
    (7, b"1", &[0x00, 0x00]),
    (7, b"1", &[0x31, 0x00]),
    (65, &[3], &[0x00, 0x00]),
    (65, &[3], &[0x00, 0x00, 0x00, 0x00]),
    (65, &[3], b"AB"),
    (65, &[3], b"ABC\0"),
    (66, &[], &[0x00, 0x00, 0x00, 0x00, 0x00, 0x00, 0x00]),
    (66, &[], b"\0\0\0\0\0\0\0\0\0"),
];

// Codes that are listed and others.
const CODES_READ: [Read; 14] = [
    (7, b"12", b"1"),
    (7, b"12", b"2"),
    (7, b"12", b"3"),
    (7, b"12", b"0"),
    (7, b"12", &[0]),
    (7, &[0, 0x31], &[0]),
    (7, &[0, 0x31], b"1"),
    (7, &[0, 0x31], &[1]),
    (7, &[255], &[255]),
    (7, &[255], &[254]),
    (7, CODES_32, &[1]),
    (7, CODES_32, &[32]),
    (7, CODES_32, &[33]),
    (7, CODES_33, &[33]),
];

// Codes that are listed and others; the low byte of 305 is listed.
const CODES_WRITTEN: [Write; 8] = [
    (7, b"12", Value::Unsigned(50)),
    (7, b"12", Value::Unsigned(51)),
    (7, b"12", Value::Unsigned(0)),
    (7, b"12", Value::Unsigned(305)),
    (7, &[0, 0x31], Value::Unsigned(0)),
    (7, &[0, 0x31], Value::Unsigned(49)),
    (7, &[0, 0x31], Value::Unsigned(256)),
    (7, &[255], Value::Unsigned(255)),
];

// Characters and zeros.
const TEXTS_READ: [Read; 20] = [
    (65, &[3], b"A\0B"),
    (65, &[3], b"ABC"),
    (65, &[3], b"AB\0"),
    (65, &[3], b"A\0\0"),
    (65, &[3], &[0, 0, 0]),
    (65, &[3], b"\0AB"),
    (65, &[3], b"\0\0A"),
    (65, &[3], b"   "),
    (65, &[3], b"A \0"),
    (65, &[3], &[0x41, 0x7F, 0]),
    (65, &[3], &[0x41, 0, 0x1F]),
    (65, &[1], &[0]),
    (65, &[1], &[0x1F]),
    (65, &[1], &[0x20]),
    (65, &[1], &[0x7E]),
    (65, &[1], &[0x7F]),
    (65, &[1], &[0xC3]),
    (65, &[20], b"ABCDEFGHIJKLMNOPQRST"),
    (65, &[20], b"ABCDEFGHIJKLMNOPQRS\0"),
    (65, &[21], b"\0\0\0\0\0\0\0\0\0\0\0\0\0\0\0\0\0\0\0\0\0"),
];

// Texts, and what is none.
const TEXTS_WRITTEN: [Write; 17] = [
    (65, &[3], Value::Text(&[])),
    (65, &[3], Value::Text(b"A")),
    (65, &[3], Value::Text(b"AB")),
    (65, &[3], Value::Text(b"ABC")),
    (65, &[3], Value::Text(b"ABCD")),
    (65, &[3], Value::Text(b"A\0B")),
    (65, &[3], Value::Text(b"A\0")),
    (65, &[3], Value::Text(&[0])),
    (65, &[1], Value::Text(&[0x1F])),
    (65, &[1], Value::Text(&[0x20])),
    (65, &[1], Value::Text(&[0x7E])),
    (65, &[1], Value::Text(&[0x7F])),
    (65, &[1], Value::Text(&[])),
    (65, &[20], Value::Text(b"ABCDEFGHIJKLMNOPQRST")),
    (65, &[20], Value::Text(b"ABCDEFGHIJKLMNOPQRSTU")),
    (65, &[21], Value::Text(b"A")),
    (65, &[0], Value::Text(b"A")),
];

// Investors, and the pair that is none.
const INVESTORS_WRITTEN: [Write; 6] = [
    (66, &[], Value::Investor((0, 0))),
    (66, &[], Value::Investor((300, 123456))),
    (66, &[], Value::Investor((0, 1))),
    (66, &[], Value::Investor((1, 0))),
    (66, &[], Value::Investor((65535, 4294967295))),
    (66, &[0], Value::Investor((300, 123456))),
];

// Investors, and bytes that are none.
const INVESTORS_READ: [Read; 10] = [
    (66, &[], &[0x2C, 0x01, 0x00, 0x00, 0x40, 0xE2, 0x01, 0x00]),
    (66, &[], &[0x00, 0x00, 0x00, 0x00, 0x00, 0x00, 0x00, 0x00]),
    (66, &[], &[0x00, 0x00, 0x00, 0x00, 0x01, 0x00, 0x00, 0x00]),
    (66, &[], &[0x01, 0x00, 0x00, 0x00, 0x00, 0x00, 0x00, 0x00]),
    (66, &[], &[0xFF, 0xFF, 0x00, 0x00, 0xFF, 0xFF, 0xFF, 0xFF]),
    (66, &[], &[0x2C, 0x01, 0x01, 0x00, 0x40, 0xE2, 0x01, 0x00]),
    (66, &[], &[0x2C, 0x01, 0x00, 0x01, 0x40, 0xE2, 0x01, 0x00]),
    (66, &[], &[0x00, 0x00, 0x01, 0x00, 0x00, 0x00, 0x00, 0x00]),
    (66, &[], &[0x00, 0x00, 0x00, 0x01, 0x00, 0x00, 0x00, 0x00]),
    (66, &[0], &[0x2C, 0x01, 0x00, 0x00, 0x40, 0xE2, 0x01, 0x00]),
];

// A type of each number.
const EACH: [Type; 10] = [
    (1, &[0]),
    (2, &[0]),
    (3, &[0]),
    (4, &[0]),
    (5, &[0]),
    (6, &[0]),
    (7, b"12"),
    (8, &[0, 0]),
    (65, &[1]),
    (66, &[]),
];

// A value of each kind.
const KIND_VALUES: [Value<'static>; 5] = [
    Value::Unsigned(49),
    Value::Signed(49),
    Value::Decimal(49, 0),
    Value::Text(b"1"),
    Value::Investor((49, 1)),
];

fn reads<L: TypeLibrary>(rt: &HostRuntime, library: &L, table: &[Read]) -> io::Result<()> {
    for (number, argument, bytes) in table {
        show_read(rt, library, *number, *argument, *bytes)?;
    }
    Ok(())
}

fn writes<L: TypeLibrary>(rt: &HostRuntime, library: &L, table: &[Write]) -> io::Result<()> {
    for (number, argument, value) in table {
        show_write(rt, library, *number, *argument, *value)?;
    }
    Ok(())
}

// A value of each kind at a type of each number.
fn every_kind<L: TypeLibrary>(rt: &HostRuntime, library: &L) -> io::Result<()> {
    for (number, argument) in &EACH {
        for value in &KIND_VALUES {
            show_write(rt, library, *number, *argument, *value)?;
        }
    }
    Ok(())
}

pub(crate) fn run<L: TypeLibrary>(rt: &HostRuntime, library: &L) -> io::Result<()> {
    writes(rt, library, &DECIMALS)?;
    every_kind(rt, library)?;
    reads(rt, library, &SIZES)?;
    reads(rt, library, &CODES_READ)?;
    writes(rt, library, &CODES_WRITTEN)?;
    reads(rt, library, &TEXTS_READ)?;
    writes(rt, library, &TEXTS_WRITTEN)?;
    writes(rt, library, &INVESTORS_WRITTEN)?;
    reads(rt, library, &INVESTORS_READ)
}

// A line for each question to a library or the cutter.
use crate::shown::{Meant, Read, Refused, Written};
use printing::Hex;
use std::io;
use types::{Pattern, TypeLibrary, Value};
use wire::{Piece, Refusal, cut};

// A pattern and what it reads as, or a refusal.
fn print_read_back<L: TypeLibrary>(
    rt: &HostRuntime,
    library: &L,
    number: u8,
    argument: &[u8],
    answer: Result<Pattern, Refusal>,
) -> io::Result<()> {
    print!(rt; "{}", Written(answer))?;
    if let Ok(pattern) = answer {
        print!(rt;
            " {}",
            Read(library.read(number, argument, pattern.as_bytes()))
        )?;
    }
    println!(rt; "")
}

// Number and argument are passed on as the calls of a library take them.

// What is read from bytes.
pub(crate) fn show_read<L: TypeLibrary>(
    rt: &HostRuntime,
    library: &L,
    number: u8,
    argument: &[u8],
    bytes: &[u8],
) -> io::Result<()> {
    let read = Read(library.read(number, argument, bytes));
    println!(rt; "read {number} {} {} {read}", Hex(argument), Hex(bytes))
}

// The pattern of a value, and what it reads as.
pub(crate) fn show_write<L: TypeLibrary>(
    rt: &HostRuntime,
    library: &L,
    number: u8,
    argument: &[u8],
    value: Value<'_>,
) -> io::Result<()> {
    print!(rt; "write {number} {} {} ", Hex(argument), Meant(value))?;
    let answer = library.write(number, argument, value);
    print_read_back(rt, library, number, argument, answer)
}

// What blank, read and write answer for a type that is refused.
fn show_unknown<L: TypeLibrary>(
    rt: &HostRuntime,
    library: &L,
    number: u8,
    argument: &[u8],
) -> io::Result<()> {
    let blank = Written(library.blank(number, argument));
    let read = Read(library.read(number, argument, &[0]));
    let write = Written(library.write(number, argument, Value::unsigned(0)));
    println!(rt; ", {blank}, {read}, {write}")
}

// The width and the blank of a type, and what the blank reads as; or the refusals of all four calls.
pub(crate) fn show_type<L: TypeLibrary>(
    rt: &HostRuntime,
    name: &str,
    library: &L,
    number: u8,
    argument: &[u8],
) -> io::Result<()> {
    print!(rt; "{name} {number} {} ", Hex(argument))?;
    match library.width(number, argument) {
        Ok(width) => {
            print!(rt; "width {width} blank ")?;
            let answer = library.blank(number, argument);
            print_read_back(rt, library, number, argument, answer)
        }
        Err(refusal) => {
            print!(rt; "{}", Refused(refusal))?;
            show_unknown(rt, library, number, argument)
        }
    }
}

// What is cut off a stream.
pub(crate) fn show_cut(rt: &HostRuntime, stream: &[u8]) -> io::Result<()> {
    let bytes = Hex(stream);
    match cut(stream) {
        Ok(Piece::Missing(count)) => println!(rt; "cut {bytes} missing {count}"),
        Ok(Piece::Frame { frame, rest }) => {
            println!(rt; "cut {bytes} frame {} rest {}", Hex(frame), Hex(rest))
        }
        Err(refusal) => println!(rt; "cut {bytes} {}", Refused(refusal)),
    }
}

// What is cut off a stream whose first frame has the length, by lengths alone.
pub(crate) fn show_long_cut(rt: &HostRuntime, stream: &[u8], length: usize) -> io::Result<()> {
    print!(rt; "cut {} of {length} ", stream.len())?;
    match cut(stream) {
        Ok(Piece::Missing(count)) => println!(rt; "missing {count}"),
        Ok(Piece::Frame { frame, rest }) => {
            println!(rt; "frame {} rest {}", frame.len(), rest.len())
        }
        Err(refusal) => println!(rt; "{}", Refused(refusal)),
    }
}

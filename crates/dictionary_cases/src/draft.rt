// Dictionaries written down line by line, and their bytes.
use std::alloc::{AllocError, Global};

// The schema version of every dictionary that is drafted.
pub const VERSION: u16 = 6;

// A line, or bytes that stand where a line is due. The tables of cases write a line in a row: with named fields each would take five.
#[derive(Clone, Copy)]
pub enum Line {
    // Tag, offset and since of an optional field of one byte: type 1 without absent.
    Field(u32, u16, u16),
    // Tag, offset, since, type and argument of an optional field.
    Typed(u32, u16, u16, u8, &'static [u8]),
    // Tag, offset and presence of a field of one byte.
    Present(u32, u16, u8),
    // Tag and entry block length.
    Group(u32, u16),
    End,
    // Tag, since and longest.
    Data(u32, u16, u8),
    Bytes(&'static [u8]),
}

// Number, since, root block length and lines.
#[derive(Clone, Copy)]
pub struct Template(pub u16, pub u16, pub u16, pub &'static [Line]);

// A label, and the templates of a dictionary.
#[derive(Clone, Copy)]
pub struct Case(pub &'static str, pub &'static [Template]);

// A length as two bytes, the big end first; what is longer than these can say as their most.
fn two_bytes(length: usize) -> [u8; 2] {
    u16::try_from(length).unwrap_or(u16::MAX).to_be_bytes()
}

// A field line: tag, offset, since, type and presence, argument. It is no line of the library's, which the check is to read from these bytes.
fn put_field(
    bytes: &mut Vec<u8>,
    tag: u32,
    places: [u16; 2],
    kind: [u8; 2],
    argument: &[u8],
) -> Result<(), AllocError> {
    let length = u8::try_from(argument.len().saturating_add(12)).unwrap_or(u8::MAX);
    bytes.extend_from_slice(&[length, 1])?;
    bytes.extend_from_slice(&tag.to_be_bytes())?;
    bytes.extend_from_slice(&places[0].to_be_bytes())?;
    bytes.extend_from_slice(&places[1].to_be_bytes())?;
    bytes.extend_from_slice(&kind)?;
    bytes.extend_from_slice(argument)
}

fn put_group(bytes: &mut Vec<u8>, tag: u32, size: u16) -> Result<(), AllocError> {
    bytes.extend_from_slice(&[8, 2])?;
    bytes.extend_from_slice(&tag.to_be_bytes())?;
    bytes.extend_from_slice(&size.to_be_bytes())
}

fn put_data(bytes: &mut Vec<u8>, tag: u32, since: u16, longest: u8) -> Result<(), AllocError> {
    bytes.extend_from_slice(&[9, 4])?;
    bytes.extend_from_slice(&tag.to_be_bytes())?;
    bytes.extend_from_slice(&since.to_be_bytes())?;
    bytes.extend_from_slice(&[longest])
}

pub fn put_line(bytes: &mut Vec<u8>, line: Line) -> Result<(), AllocError> {
    match line {
        Line::Field(tag, offset, since) => put_field(bytes, tag, [offset, since], [1, 0], &[0]),
        Line::Typed(tag, offset, since, number, argument) => {
            put_field(bytes, tag, [offset, since], [number, 0], argument)
        }
        Line::Present(tag, offset, presence) => {
            put_field(bytes, tag, [offset, 0], [1, presence], &[0])
        }
        Line::Group(tag, size) => put_group(bytes, tag, size),
        Line::End => bytes.extend_from_slice(&[2, 3]),
        Line::Data(tag, since, longest) => put_data(bytes, tag, since, longest),
        Line::Bytes(s) => bytes.extend_from_slice(s),
    }
}

// A template of the bytes of its lines: the head says how long it is with them.
pub fn put_section(
    bytes: &mut Vec<u8>,
    number: u16,
    since: u16,
    size: u16,
    body: &[u8],
) -> Result<(), AllocError> {
    bytes.extend_from_slice(&two_bytes(body.len().saturating_add(8)))?;
    bytes.extend_from_slice(&number.to_be_bytes())?;
    bytes.extend_from_slice(&since.to_be_bytes())?;
    bytes.extend_from_slice(&size.to_be_bytes())?;
    bytes.extend_from_slice(body)
}

fn put_template(heap: Global, bytes: &mut Vec<u8>, template: Template) -> Result<(), AllocError> {
    let Template(number, since, size, lines) = template;
    let mut body = Vec::new(heap);
    for line in lines {
        put_line(&mut body, *line)?;
    }
    put_section(bytes, number, since, size, body.as_slice())
}

// A dictionary's head, and then what stands behind it: layout 1, the whole length, schema 1, the version.
pub fn headed(heap: Global, rest: &[u8]) -> Result<Vec<u8>, AllocError> {
    let mut bytes = Vec::new(heap);
    bytes.push(1)?;
    bytes.extend_from_slice(&two_bytes(rest.len().saturating_add(7)))?;
    bytes.extend_from_slice(&[0, 1])?;
    bytes.extend_from_slice(&VERSION.to_be_bytes())?;
    bytes.extend_from_slice(rest)?;
    Ok(bytes)
}

// The dictionary of these templates.
pub fn bytes_of(heap: Global, templates: &[Template]) -> Result<Vec<u8>, AllocError> {
    let mut rest = Vec::new(heap);
    for t in templates {
        put_template(heap, &mut rest, *t)?;
    }
    headed(heap, rest.as_slice())
}

// Templates without lines, numbered from 0 on, and then one of these bytes.
pub fn many(heap: Global, count: u16, body: &[u8]) -> Result<Vec<u8>, AllocError> {
    let mut rest = Vec::new(heap);
    for number in 0..count {
        put_section(&mut rest, number, 0, 0, &[])?;
    }
    put_section(&mut rest, count, 0, 0, body)?;
    headed(heap, rest.as_slice())
}

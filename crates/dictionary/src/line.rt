// The lines of a template.
ghost use Rattle.std.specs.Prelude.{◌≡◌, ◌+◌, ◌^◌, ◌<◌, ◌≤◌, length, take, drop};
ghost use Rattle.wire.specs.Numbers.{be_value};
ghost use Rattle.schema.specs.Lines.{first_line, line_size, line_of};
ghost use Rattle.dictionary.specs.Shown.{shown_first, shown_line, tag_of};

use wire::{be_read, part, tail};

// A field: where it stands in its block, since which version, its type by number and argument. Its presence is the byte that the line holds: the check says later whether it is one, and editions compare the byte, whatever it is.
#[derive(Clone, Copy, PartialEq, Eq)]
pub struct FieldLine<'a> {
    pub tag: u32,
    pub offset: u16,
    pub since: u16,
    pub number: u8,
    pub presence: u8,
    pub argument: &'a [u8],
}

#[derive(Clone, Copy, PartialEq, Eq)]
pub enum Line<'a> {
    Field(FieldLine<'a>),
    Group { tag: u32, size: u16 },
    End,
    Data { tag: u32, since: u16, longest: u8 },
}

// The big-endian number of W bytes at p.
pub fn number_at<const W: usize>(s: &[u8], p: usize) -> u64
    requires width { W ≤ 8 }
    requires within { p + W ≤ length s.now }
    ensures value { result ≡ be_value (take W (drop p s.now)) }
    ensures bound { result < 256 ^ W }
{
    be_read(part(s, p, W))
}

// The line that bytes of one sort are, where that sort can have so many: the sort is a byte of the format, and what it says is the line's variant.
fn line_of(sort: u8, bytes: &[u8]) -> Option<Line<'_>>
    ensures { shown_first result ≡ line_of (length bytes.now) sort bytes.now }
{
    match (sort, bytes.len()) {
        (1, 12..) => Some(Line::Field(FieldLine {
            tag: number_at::<4>(bytes, 2) as u32,
            offset: number_at::<2>(bytes, 6) as u16,
            since: number_at::<2>(bytes, 8) as u16,
            number: bytes[10],
            presence: bytes[11],
            argument: tail(bytes, 12),
        })),
        (2, 8) => Some(Line::Group {
            tag: number_at::<4>(bytes, 2) as u32,
            size: number_at::<2>(bytes, 6) as u16,
        }),
        (3, 2) => Some(Line::End),
        (4, 9) => Some(Line::Data {
            tag: number_at::<4>(bytes, 2) as u32,
            since: number_at::<2>(bytes, 6) as u16,
            longest: bytes[8],
        }),
        _ => None,
    }
}

// The line that the bytes begin with, or None where they begin with no line.
pub fn first_line(s: &[u8]) -> Option<Line<'_>>
    ensures { shown_first result ≡ first_line s.now }
{
    let [n, sort, ..] = s else {
        return None;
    };
    line_of(*sort, s.get(..usize::from(*n))?)
}

impl<'a> Line<'a> {
    // How many bytes the line has.
    pub fn size(self) -> usize
        ensures { result ≡ line_size (shown_line self.entry) }
    {
        match self {
            Line::Field(f) => 12 + f.argument.len(),
            Line::Group { .. } => 8,
            Line::End => 2,
            Line::Data { .. } => 9,
        }
    }

    // The tag that the line brings, 0 for the end of a group.
    pub fn tag(self) -> u32
        ensures { result ≡ tag_of (shown_line self.entry) }
    {
        match self {
            Line::Field(f) => f.tag,
            Line::Group { tag, .. } | Line::Data { tag, .. } => tag,
            Line::End => 0,
        }
    }
}

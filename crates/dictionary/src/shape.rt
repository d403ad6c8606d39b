// Shape and names: what lines follow one another, and that numbers rise and tags differ.
ghost use Rattle.std.specs.Prelude.{◌≡◌, ◌+◌, ◌^◌, ◌<◌, ◌≤◌, length, Some};
ghost use Rattle.schema.specs.Lines.{lines, there};
ghost use Rattle.schema.specs.Shape.{in_order, ended, lines_shape, nothing_above};
ghost use Rattle.dictionary.specs.Shown.{shown_line};
ghost use Rattle.dictionary.specs.Surveys.{staged, gathered_field, gathered_past, gathered_from, nothing_gathered, above_from, new_among, named, own_tags, line_judged, line_weighed};

use crate::line::Line;
use crate::lines::Lines;
use wire::{Reason, Refusal, part};

// At most so many fields in a block, and groups and data in a template.
const MOST_FIELDS: usize = 64;

const MOST_GROUPS: usize = 8;

const MOST_DATA: usize = 8;

// Where among a template's lines a line stands: among the root's fields, inside the group whose line is at a place, behind a group, or among the data.
#[derive(Clone, Copy)]
pub enum Stage {
    Root,
    Inside(usize),
    Behind,
    Closing,
}

// What the lines above a line say of a tag: whether the root's fields, groups and data have it, and the fields of the block that stands open; and how many of each there are.
// The two facts are independent of one another and of the stage, so they are no enum.
#[derive(Clone, Copy)]
pub struct Survey {
    pub stage: Stage,
    pub outer: bool,
    pub inner: bool,
    pub fields: usize,
    pub groups: usize,
    pub parts: usize,
}

// Root fields come first, then groups, then data; a group holds only fields, and ends.
fn is_in_order(stage: Stage, line: Line<'_>) -> bool
    ensures { result ≡ in_order (staged stage) (shown_line line.entry) }
{
    match stage {
        Stage::Root => !matches!(line, Line::End),
        Stage::Inside(_) => matches!(line, Line::Field(_) | Line::End),
        Stage::Behind => matches!(line, Line::Group { .. } | Line::Data { .. }),
        Stage::Closing => matches!(line, Line::Data { .. }),
    }
}

// A tag that is not 0 and was not found.
fn is_new(tag: u32, found: bool) -> bool
    ensures { result ≡ new_among tag found }
{
    tag != 0 && !found
}

impl Survey {
    fn start() -> Survey
        ensures { result ≡ nothing_gathered }
    {
        Survey {
            stage: Stage::Root,
            outer: false,
            inner: false,
            fields: 0,
            groups: 0,
            parts: 0,
        }
    }

    // Whether the set that a field's tag belongs to has the tag: a group's fields have their own.
    fn has_field_tag(self) -> bool
        ensures { result ≡ own_tags self.stage self.outer self.inner }
    {
        match self.stage {
            Stage::Inside(_) => self.inner,
            Stage::Root | Stage::Behind | Stage::Closing => self.outer,
        }
    }

    // Whether a line below is well named: a new tag, and no 65th field, 9th group or 9th data.
    fn takes(self, line: Line<'_>) -> bool
        ensures { result ≡ named self (shown_line line.entry) }
    {
        match line {
            Line::Field(f) => is_new(f.tag, self.has_field_tag()) && self.fields < MOST_FIELDS,
            Line::Group { tag, .. } => is_new(tag, self.outer) && self.groups < MOST_GROUPS,
            Line::End => true,
            Line::Data { tag, .. } => is_new(tag, self.outer) && self.parts < MOST_DATA,
        }
    }

    // With a field of a tag above as well.
    fn past_field(self, sought: u32, tag: u32) -> Survey
        requires { self.fields < 2 ^ 63 }
        ensures value { result ≡ gathered_field self.stage sought self tag }
        ensures bound { (result.fields ≤ self.fields + 1) × (result.groups ≤ self.groups + 1) × (result.parts ≤ self.parts + 1) }
    {
        let found = tag == sought;
        match self.stage {
            Stage::Root => Survey {
                outer: found || self.outer,
                inner: found || self.inner,
                fields: self.fields + 1,
                ..self
            },
            Stage::Inside(_) => Survey {
                inner: found || self.inner,
                fields: self.fields + 1,
                ..self
            },
            Stage::Behind | Stage::Closing => self,
        }
    }

    // With a line at a place above as well.
    fn past(self, sought: u32, place: usize, line: Line<'_>) -> Survey
        requires { (self.fields < 2 ^ 63) × (self.groups < 2 ^ 63) × (self.parts < 2 ^ 63) }
        ensures value { result ≡ gathered_past sought self place (shown_line line.entry) }
        ensures bound { (result.fields ≤ self.fields + 1) × (result.groups ≤ self.groups + 1) × (result.parts ≤ self.parts + 1) }
    {
        match line {
            Line::Field(f) => self.past_field(sought, f.tag),
            Line::Group { tag, .. } => Survey {
                stage: Stage::Inside(place),
                outer: tag == sought || self.outer,
                inner: false,
                fields: 0,
                groups: self.groups + 1,
                ..self
            },
            Line::End => Survey {
                stage: Stage::Behind,
                inner: false,
                fields: 0,
                ..self
            },
            Line::Data { tag, .. } => Survey {
                stage: Stage::Closing,
                outer: tag == sought || self.outer,
                inner: false,
                fields: 0,
                parts: self.parts + 1,
                ..self
            },
        }
    }

    // A line at a place below: its size, or why it may not stand there.
    fn weigh(self, place: usize, line: Line<'_>) -> Result<usize, Refusal>
        ensures { result ≡ line_weighed self place (shown_line line.entry) }
    {
        if !is_in_order(self.stage, line) {
            return Err(Reason::LineShape.at(place, 0));
        }
        if !self.takes(line) {
            return Err(Reason::LineName.at(place, 0));
        }
        Ok(line.size())
    }

    // At a template's end no group stands open.
    fn end(self) -> Result<(), Refusal>
        ensures { result ≡ ended (staged self.stage) }
    {
        match self.stage {
            Stage::Inside(place) => Err(Reason::LineShape.at(place, 0)),
            Stage::Root | Stage::Behind | Stage::Closing => Ok(()),
        }
    }
}

// What the lines say of a tag; they begin at a place.
fn survey_of(before: &[u8], place: usize, sought: u32) -> Survey
    requires { place + length before.now < 2 ^ 63 }
    ensures { result ≡ gathered_from sought nothing_gathered place (there (lines before.now)) }
{
    let mut above = Survey::start();
    let mut at = place;
    for line in Lines::of(before) {
        above = above.past(sought, at, line);
        at += line.size();
    }
    above
}

// A line of a template whose lines begin at a place, judged by those above it: its size.
fn judge_line(above: &[u8], place: usize, line: Line<'_>) -> Result<usize, Refusal>
    requires { place + length above.now < 2 ^ 63 }
    ensures { result ≡ line_judged (above_from nothing_above place (there (lines above.now))) (place + length above.now) (Some (shown_line line.entry)) }
{
    survey_of(above, place, line.tag()).weigh(place + above.len(), line)
}

// The lines of a template, from a place on: each of a known sort and length, in order, well named, and each group ended.
pub fn check_lines(body: &[u8], place: usize) -> Result<(), Refusal>
    requires { place + length body.now < 2 ^ 63 }
    ensures { result ≡ lines_shape nothing_above place (lines body.now) }
{
    // What the walk leaves tells whether the next line is broken, so the walk is kept beside the loop.
    let mut lines = Lines::of(body);
    let mut at = 0;
    while let Some(line) = lines.next() {
        at += judge_line(part(body, 0, at), place, line)?;
    }
    if lines.rest.is_empty() {
        survey_of(body, place, 0).end()
    } else {
        Err(Reason::LineShape.at(place + at, 0))
    }
}

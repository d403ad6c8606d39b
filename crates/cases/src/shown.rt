// How bytes, values and refusals are shown.
use printing::{Hex, Plain};
use std::fmt;
use types::{Pattern, Value};
use wire::Refusal;

// A value of a kind that can be told from the others.
#[derive(Clone, Copy)]
pub(crate) struct Meant<'a>(pub Value<'a>);

impl fmt::Display for Meant<'_> {
    fn fmt<W: fmt::Write>(&self, f: &mut fmt::Formatter<W>) -> fmt::Result {
        match self.0 {
            Value::Signed(n) => write!(f, "{n:+}"),
            Value::Text(characters) => write!(f, "text {}", Hex(characters)),
            value => write!(f, "{}", Plain(value)),
        }
    }
}

// A refusal: its number, and its place and tag where it has them.
#[derive(Clone, Copy)]
pub(crate) struct Refused(pub Refusal);

impl fmt::Display for Refused {
    fn fmt<W: fmt::Write>(&self, f: &mut fmt::Formatter<W>) -> fmt::Result {
        let Refusal { reason, place, tag } = self.0;
        write!(f, "refused {}", reason.number())?;
        if place > 0 {
            write!(f, " at {place}")?;
        }
        if tag > 0 {
            write!(f, " tag {tag}")?;
        }
        Ok(())
    }
}

// What is read: a value, absent or a refusal.
#[derive(Clone, Copy)]
pub(crate) struct Read<'a>(pub Result<Option<Value<'a>>, Refusal>);

impl fmt::Display for Read<'_> {
    fn fmt<W: fmt::Write>(&self, f: &mut fmt::Formatter<W>) -> fmt::Result {
        match self.0 {
            Ok(Some(value)) => write!(f, "{}", Meant(value)),
            Ok(None) => f.write_str("absent"),
            Err(refusal) => write!(f, "{}", Refused(refusal)),
        }
    }
}

// A pattern or a refusal.
#[derive(Clone, Copy)]
pub(crate) struct Written(pub Result<Pattern, Refusal>);

impl fmt::Display for Written {
    fn fmt<W: fmt::Write>(&self, f: &mut fmt::Formatter<W>) -> fmt::Result {
        match self.0 {
            Ok(pattern) => write!(f, "{}", Hex(pattern.as_bytes())),
            Err(refusal) => write!(f, "{}", Refused(refusal)),
        }
    }
}

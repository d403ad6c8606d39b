// How contents and refusals are shown.
use printing::{Content, Hex};
use std::fmt;
use types::Value;

// What a field holds, a text with its name before it; a dash where it is absent.
#[derive(Clone, Copy)]
pub(crate) struct Named<'a>(pub Option<Value<'a>>);

impl fmt::Display for Named<'_> {
    fn fmt<W: fmt::Write>(&self, f: &mut fmt::Formatter<W>) -> fmt::Result {
        match self.0 {
            Some(Value::Text(characters)) => write!(f, "text {}", Hex(characters)),
            value => write!(f, "{}", Content(value)),
        }
    }
}

// The lines of a dictionary one after the other, as they are seen at a version.
#![tactic(auto)]

mod fields;
mod groups;
mod header;
mod parts;
mod templates;

pub use fields::{Fields, SeenFields, length_at};
pub use groups::{GroupLine, Groups};
pub use header::number_at;
pub use parts::{PartLine, Parts, SeenParts};
pub use templates::{SeenTemplates, Templates};

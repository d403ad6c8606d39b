// Dictionaries: their lines and templates, the check, and what is seen at a version.
#![tactic(auto)]

mod checking;
mod finding;
mod found;
mod geometry;
mod line;
mod lines;
mod placed;
mod section;
mod sections;
mod seen;
mod shape;

pub use checking::check;
pub use finding::find;
pub use found::Found;
pub use line::{FieldLine, Line, first_line};
pub use lines::Lines;
pub use section::{Section, first_section};
pub use sections::Sections;
pub use seen::seen_field;

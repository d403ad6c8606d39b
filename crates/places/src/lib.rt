// Where the fields, groups and data of a form lie in the bytes of its frame.
#![tactic(auto)]

mod blank;
mod fields;
mod groups;
mod parts;
mod place;
mod refusing;
mod template;

pub use place::{FieldPlace, GroupPlace, PartPlace};
pub use template::{blank_length, field_place, group_place, part_place};

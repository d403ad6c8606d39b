// What each call on a form does to the bytes of its buffer.
#![tactic(auto)]

mod adding;
mod opening;
mod room;
mod setting;
mod working;
mod writing;

pub use opening::open_frame;
pub use working::{Numbers, Working, check_closed, works_on};

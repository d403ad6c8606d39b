// The verdict on the bytes of a frame.
#![tactic(auto)]

mod block;
mod group;
mod judging;
mod part;
mod rules;

pub use block::width_of;
pub use group::{entry_count, entry_length};
pub use judging::{judge, stated_at};
pub use part::content_length;

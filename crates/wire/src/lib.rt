// Refusals, numbers in bytes, and the cutting of a stream into frames.
#![tactic(auto)]

mod number;
mod refusal;
mod stream;

pub use number::{be_put, be_read, beyond, le_put, le_read, part, seen, tail, upto};
pub use refusal::{Reason, Refusal, located};
pub use stream::{Piece, cut, is_frame_length};

// Blank blocks and blank frames, written into a buffer.
#![tactic(auto)]

mod block;
mod contents;
mod header;

pub use block::put_blank_block;
pub use contents::put_blank_contents;
pub use header::put_header;

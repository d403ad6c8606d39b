// Frames: accepted, read and walked.
#![tactic(auto)]

mod accepted;
mod accepting;
mod held;
mod reading;
mod spotting;
mod template;
mod walking;

pub use accepted::Frame;
pub use accepting::accept;
pub use reading::Reading;
pub use spotting::Spot;
pub use walking::{Item, Walk};

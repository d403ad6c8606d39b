// Lists of calls on a form, made one after another.
#![tactic(auto)]

mod asked;
mod held;
mod running;

pub use asked::{Answer, Call};
pub use held::Form;
pub use running::{make, run};

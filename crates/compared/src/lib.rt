// Calls for the comparison with a second implementation: the cutter, and lists of calls on a form, which are passed as bytes.
#![tactic(auto)]

mod asked;
mod run;
mod taken;

pub use run::{compared_cut, compared_run};

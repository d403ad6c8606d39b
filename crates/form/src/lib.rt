// Order forms, filled in place in a caller's buffer.
#![tactic(auto)]

mod closed;
mod open;
mod order_form;

pub use order_form::{Closed, ClosedForm, Open, OpenForm, OrderForm};

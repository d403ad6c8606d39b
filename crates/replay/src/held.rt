// The form that is held in a buffer.
use form::{ClosedForm, OpenForm};

// No form, an open one or a closed one. A rule of the project: a form is one enum, with none as a case. Neither Copy nor Drop: it is moved on, or let go by name.
pub enum Form {
    None,
    Open(OpenForm),
    Closed(ClosedForm),
}

impl Form {
    // Lets the form go.
    pub fn abandon(self) {
        match self {
            Form::None => {}
            Form::Open(held) => held.abandon(),
            Form::Closed(held) => held.abandon(),
        }
    }
}

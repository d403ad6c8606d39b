// A form that is closed: its frame is ready to be sent.
ghost use Rattle.std.specs.Prelude.{◌≡◌, Ok};
ghost use Rattle.wire.specs.Bytes.{Bytes};
ghost use Rattle.wire.specs.Refusals.{bind};
ghost use Rattle.schema.specs.Reading.{dictionary_of};
ghost use Rattle.calls.specs.Calls.{by_buffer, reopening};
ghost use Rattle.steps.specs.Steps.{working};
ghost use Rattle.filling.specs.Shown.{plain_numbers};
ghost use Rattle.form.specs.Forms.{form_numbers, Changes};

use crate::order_form::{ClosedForm, OpenForm};
use filling::{Numbers, works_on};
use types::TypeLibrary;
use wire::Refusal;

// What a form has to be to be opened again: the buffer begins with its frame.
fn check_reopened<L: TypeLibrary>(
    dictionary: &[u8],
    library: &L,
    buffer: &[u8],
    form: Numbers,
) -> Result<(), Refusal>
    ensures value { result ≡ bind (working (L.known library.now) dictionary.now buffer.now (plain_numbers form)) (λ _. Ok tt) }
    ensures bytes { Bytes buffer.now }
{
    works_on(dictionary, library, buffer, form)?;
    Ok(())
}

impl ClosedForm {
    // Opens the form again, with the message that it holds.
    pub fn reopen<L: TypeLibrary>(
        self,
        dictionary: &[u8],
        library: &L,
        buffer: &[u8],
    ) -> Result<OpenForm, (ClosedForm, Refusal)>
        ensures { Changes (L.known library.now) (dictionary_of dictionary.now) (reopening (L.known library.now) dictionary.now (by_buffer (L.known library.now) dictionary.now buffer.now) (form_numbers self)) result self buffer.now }
    {
        let checked = check_reopened(dictionary, library, buffer, self.numbers);
        self.changed(checked)
    }
}

// A form, open or closed.
ghost use Rattle.std.specs.Prelude.{◌≡◌, List, ℕ, Ok, Result};
ghost use Rattle.wire.specs.declared.refusal.Refusal.{Refusal};
ghost use Rattle.types.specs.Kinds.{Known};
ghost use Rattle.schema.specs.Structure.{Dictionary};
ghost use Rattle.message.specs.Messages.{Message, frame};
ghost use Rattle.calls.specs.Calls.{numbers_of, laid};
ghost use Rattle.steps.specs.Steps.{verdict_of};
ghost use Rattle.form.specs.Forms.{form_numbers, Changes};

use filling::Numbers;
use std::marker::PhantomData;
use wire::Refusal;

// A form that is being filled in.
pub struct Open;

// A form whose frame is ready to be sent.
pub struct Closed;

// A form in the state S: the number of the template, the version at which it is seen, and the length of the frame that the buffer begins with. Neither Copy nor Drop: a form is closed or reopened, or let go by name.
pub struct OrderForm<S> {
    pub(crate) numbers: Numbers,
    pub(crate) state: PhantomData<S>,
}

pub type OpenForm = OrderForm<Open>;

pub type ClosedForm = OrderForm<Closed>;

impl<S> OrderForm<S> {
    // A form with these numbers.
    pub(crate) fn of(numbers: Numbers) -> OrderForm<S>
        ensures { result.numbers ≡ numbers }
    {
        OrderForm {
            numbers,
            state: PhantomData,
        }
    }

    // The number of the template.
    pub fn template(&self) -> u16
        ensures { result ≡ (form_numbers self.now).template }
    {
        self.numbers.template
    }

    // The version at which the template is seen.
    pub fn version(&self) -> u16
        ensures { result ≡ (form_numbers self.now).version }
    {
        self.numbers.version
    }

    // How long the frame is that the buffer begins with.
    pub fn length(&self) -> usize
        ensures { result ≡ (form_numbers self.now).length }
    {
        self.numbers.length
    }

    // The same form in another state.
    pub(crate) fn into_state<T>(self) -> OrderForm<T>
        ensures { form_numbers result ≡ form_numbers self }
    {
        let OrderForm { numbers, state: _ } = self;
        OrderForm::of(numbers)
    }

    // The form in another state where a check let it pass, and else the form as it is, with the refusal.
    pub(crate) fn changed<T>(
        self,
        checked: Result<(), Refusal>,
    ) -> Result<OrderForm<T>, (OrderForm<S>, Refusal)>
        ensures { (known : Known) (d : Dictionary) (o : Result Message Refusal) (buffer : List ℕ) → verdict_of o ≡ checked → ((m : Message) → o ≡ Ok m → (form_numbers self ≡ numbers_of known d m) × (buffer ≡ laid (frame known d m) buffer)) → Changes known d o result self buffer }
    {
        match checked {
            Ok(()) => Ok(self.into_state()),
            Err(e) => Err((self, e)),
        }
    }

    // Lets the form go.
    pub fn abandon(self) {
        let OrderForm {
            numbers: _,
            state: _,
        } = self;
    }
}

// Calls made one after another.
ghost use Rattle.std.specs.Prelude.{◌≡◌, ℕ, List, ◌++◌, map, length, drop};
ghost use Rattle.schema.specs.Laws.{Checked};
ghost use Rattle.schema.specs.Reading.{dictionary_of};
ghost use Rattle.types.specs.Kinds.{Known};
ghost use Rattle.types.specs.Meanings.{meaning};
ghost use Rattle.calls.specs.Calls.{Fill, begin, fill, filling, by_buffer, set, close, reopen, SayableCall, no_form};
ghost use Rattle.calls.specs.Runs.{run_by_buffer};
ghost use Rattle.calls.specs.Laws.{KeepsTheLaw};
ghost use Rattle.form.specs.Forms.{form_numbers, Fills};
ghost use Rattle.replay.specs.Shown.{shown_call, shown_form, shown_answer, made_calls, answers_of};
ghost use Rattle.replay.specs.Turns.{Turned};

use crate::asked::{Answer, Call, sayable};
use crate::held::Form;
use form::OpenForm;
use std::slice;
use types::TypeLibrary;
use wire::{Refusal, seen};

// A rule of the project: dictionary, library and buffer are passed at each call.

// Begins a new message, in place of the form that there is.
fn open_turn<L: TypeLibrary>(
    dictionary: &[u8],
    library: &L,
    buffer: &mut [u8],
    form: Form,
    template: u16,
    version: u16,
) -> (Form, Answer)
    ensures { Turned (L.known library.now) dictionary.now (shown_form form) buffer.old (begin template version) result.0 result.1 buffer.new }
{
    match OpenForm::open(dictionary, library, buffer, template, version) {
        Ok(held) => {
            form.abandon();
            (Form::Open(held), Answer::Accepted)
        }
        Err(e) => (form, Answer::Refused(e)),
    }
}

// Fills in an open form, by a call on it and the buffer.
fn fill_turn<F: FnOnce(&mut OpenForm, &mut [u8]) -> Result<(), Refusal>>(
    buffer: &mut [u8],
    form: Form,
    call: F,
) -> (Form, Answer)
    requires { F.IsAlwaysCallable call }
    ensures { (known : Known) (s : List ℕ) (k : Fill) → ((f : _) (b : _) (r : _) (f' : _) (b' : _) → F.post call f b r f' b' → Fills known (dictionary_of s) (filling known s (by_buffer known s b.now) (length b.now) (form_numbers f.now) k) r f.now f'.now b.now b'.now) → Turned known s (shown_form form) buffer.old (fill k) result.0 result.1 buffer.new }
{
    match form {
        Form::Open(mut held) => {
            let answer = Answer::from(call(&mut held, buffer));
            (Form::Open(held), answer)
        }
        other => (other, Answer::OutOfTurn),
    }
}

// Closes an open form. No function with the reopening: what they would share is the two arms that name the states the other way round.
fn close_turn<L: TypeLibrary>(
    dictionary: &[u8],
    library: &L,
    buffer: &[u8],
    form: Form,
) -> (Form, Answer)
    ensures { Turned (L.known library.now) dictionary.now (shown_form form) buffer.now close result.0 result.1 buffer.now }
{
    match form {
        Form::Open(held) => match held.close(dictionary, library, buffer) {
            Ok(closed) => (Form::Closed(closed), Answer::Accepted),
            Err((open, e)) => (Form::Open(open), Answer::Refused(e)),
        },
        other => (other, Answer::OutOfTurn),
    }
}

// Opens a closed form again.
fn reopen_turn<L: TypeLibrary>(
    dictionary: &[u8],
    library: &L,
    buffer: &[u8],
    form: Form,
) -> (Form, Answer)
    ensures { Turned (L.known library.now) dictionary.now (shown_form form) buffer.now reopen result.0 result.1 buffer.now }
{
    match form {
        Form::Closed(held) => match held.reopen(dictionary, library, buffer) {
            Ok(open) => (Form::Open(open), Answer::Accepted),
            Err((closed, e)) => (Form::Closed(closed), Answer::Refused(e)),
        },
        other => (other, Answer::OutOfTurn),
    }
}

// Makes one call on the form.
fn turn<L: TypeLibrary>(
    dictionary: &[u8],
    library: &L,
    buffer: &mut [u8],
    form: Form,
    call: Call<'_>,
) -> (Form, Answer)
    ensures made { Turned (L.known library.now) dictionary.now (shown_form form) buffer.old (shown_call call.entry) result.0 result.1 buffer.new }
    ensures sayable { SayableCall (shown_call call.entry) }
{
    sayable(call);
    match call {
        Call::Open { template, version } => {
            open_turn(dictionary, library, buffer, form, template, version)
        }
        Call::Set {
            group,
            entry,
            tag,
            value,
        } => {
            // The value borrows, so the closure has to say what it does.
            let set = |held: &mut OpenForm, buffer: &mut [u8]| -> Result<(), Refusal>
                ensures { Fills (L.known library.entry.now) (dictionary_of dictionary.entry.now) (filling (L.known library.entry.now) dictionary.entry.now (by_buffer (L.known library.entry.now) dictionary.entry.now buffer.old) (length buffer.old) (form_numbers held.old) (set group entry tag (meaning value.entry))) result held.old held.new buffer.old buffer.new }
            { held.set(dictionary, library, buffer, group, entry, tag, value) };
            fill_turn(buffer, form, set)
        }
        Call::Clear { group, entry, tag } => fill_turn(buffer, form, |held, buffer| {
            held.clear(dictionary, library, buffer, group, entry, tag)
        }),
        Call::Append { group } => fill_turn(buffer, form, |held, buffer| {
            held.append(dictionary, library, buffer, group)
        }),
        Call::Drop { group } => fill_turn(buffer, form, |held, buffer| {
            held.drop(dictionary, library, buffer, group)
        }),
        Call::Write { tag, content } => fill_turn(buffer, form, |held, buffer| {
            held.write(dictionary, library, buffer, tag, content)
        }),
        Call::Close => close_turn(dictionary, library, buffer, form),
        Call::Reopen => reopen_turn(dictionary, library, buffer, form),
    }
}

// Makes the calls one after another, as many as there are answers for, and gives the form back that they leave. A rule of the project: the caller lends calls and answers apart.
pub fn run<L: TypeLibrary>(
    dictionary: &[u8],
    library: &L,
    buffer: &mut [u8],
    form: Form,
    calls: &[Call<'_>],
    answers: &mut [Answer],
) -> Form
    ensures form { shown_form result ≡ (run_by_buffer (L.known library.now) dictionary.now (shown_form form) buffer.old (made_calls (length answers.old) calls.now)).form }
    ensures buffer { buffer.new ≡ (run_by_buffer (L.known library.now) dictionary.now (shown_form form) buffer.old (made_calls (length answers.old) calls.now)).buffer }
    ensures answers { map shown_answer answers.new ≡ answers_of (run_by_buffer (L.known library.now) dictionary.now (shown_form form) buffer.old (made_calls (length answers.old) calls.now)) ++ drop (length (made_calls (length answers.old) calls.now)) (map shown_answer answers.old) }
    ensures law { Checked (L.known library.now) dictionary.now → shown_form form ≡ no_form → KeepsTheLaw (L.known library.now) dictionary.now buffer.old (made_calls (length answers.old) calls.now) }
{
    seen(buffer);
    let mut held = form;
    // By index: after a zip with iter_mut a proof knows no element of the answers.
    for i in 0..calls.len().min(answers.len()) {
        let (next, answer) = turn(dictionary, library, buffer, held, calls[i]);
        held = next;
        answers[i] = answer;
    }
    held
}

// Makes one call, and gives the form back that it leaves, with the answer.
pub fn make<L: TypeLibrary>(
    dictionary: &[u8],
    library: &L,
    buffer: &mut [u8],
    form: Form,
    call: Call<'_>,
) -> (Form, Answer)
    ensures { Turned (L.known library.now) dictionary.now (shown_form form) buffer.old (shown_call call.entry) result.0 result.1 buffer.new }
{
    let mut answers = [Answer::OutOfTurn];
    let left = run(
        dictionary,
        library,
        buffer,
        form,
        slice::from_ref(&call),
        &mut answers,
    );
    (left, answers[0])
}

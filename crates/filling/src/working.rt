// The template that a form is filled in by.
ghost use Rattle.std.specs.Prelude.{◌≡◌, ◌≤◌, Some, IfOk, MatchResult, is_ok};
ghost use Rattle.dictionary.specs.Found.{placed_section};
ghost use Rattle.dictionary.specs.Shown.{shown_section};
ghost use Rattle.message.specs.Messages.{is_there};
ghost use Rattle.message.specs.Fronts.{is_frame_of, front_message};
ghost use Rattle.steps.specs.Steps.{working_by, working, close_step};
ghost use Rattle.wire.specs.Bytes.{Bytes};
ghost use Rattle.filling.specs.Shown.{plain_numbers, shown_working};
ghost use Rattle.filling.specs.Fits.{RightSection};

use crate::room::LONGEST;
use dictionary::{Found, Section, find};
use judging::{judge, stated_at};
use lines::number_at;
use types::TypeLibrary;
use wire::{Reason, Refusal, seen, upto};

// What a form is in a buffer: the number of its template, its version, and the length of its frame.
#[derive(Clone, Copy)]
pub struct Numbers {
    pub template: u16,
    pub version: u16,
    pub length: usize,
}

// What is filled in, and by what: a form, its template and the library.
#[derive(Drop)]
pub struct Working<'a, 'l, L> {
    pub library: &'l L,
    pub section: Section<'a>,
    pub form: Numbers,
}

// Whether bytes are the frame of some message of the template at the version, with required fields absent or not.
fn is_frame_of<L: TypeLibrary>(
    dictionary: &[u8],
    library: &L,
    template: u16,
    version: u16,
    bytes: &[u8],
) -> bool
    ensures { result ≡ is_frame_of (L.known library.now) dictionary.now template version bytes.now }
{
    stated_at(bytes, 6) == template
        && stated_at(bytes, 10) == version
        && version <= number_at(dictionary, 5)
        && judge(library, false, dictionary, bytes).is_ok()
}

// A rule of the project: dictionary, library and buffer are passed at each call.

// Whether a buffer begins with the frame of a message of the template, the version and the length.
fn begins_with<L: TypeLibrary>(dictionary: &[u8], library: &L, buffer: &[u8], form: Numbers) -> bool
    ensures { result ≡ is_there (front_message (L.known library.now) dictionary.now form.template form.version form.length buffer.now) }
{
    form.length <= buffer.len()
        && is_frame_of(
            dictionary,
            library,
            form.template,
            form.version,
            upto(buffer, form.length),
        )
}

// The template that was found: types and geometry, and then whether the buffer begins with a frame of it.
fn works_with<'a, L: TypeLibrary>(
    dictionary: &'a [u8],
    library: &L,
    buffer: &[u8],
    form: Numbers,
    found: Found<'a>,
) -> Result<Section<'a>, Refusal>
    ensures { shown_working result ≡ working_by (L.known library.now) dictionary.now buffer.now (plain_numbers form) (Some (placed_section found.entry)) }
{
    found.check_geometry(library, number_at(dictionary, 5))?;
    if !begins_with(dictionary, library, buffer, form) {
        return Err(Reason::NotThisForm.at(0, 0));
    }
    Ok(found.section)
}

// The template of a form, where the buffer begins with the form's frame.
fn working_section<'a, L: TypeLibrary>(
    dictionary: &'a [u8],
    library: &L,
    buffer: &[u8],
    form: Numbers,
) -> Result<Section<'a>, Refusal>
    ensures { shown_working result ≡ working (L.known library.now) dictionary.now buffer.now (plain_numbers form) }
{
    if form.version > number_at(dictionary, 5) {
        return Err(Reason::NotThisForm.at(0, 0));
    }
    let found = find(dictionary, form.template, form.version).ok_or(Reason::NotThisForm.at(0, 0))?;
    works_with(dictionary, library, buffer, form, found)
}

// The same, to fill in by: the types and the geometry of the template are right, and the frame is no longer than a frame may be.
// Clauses and no ghost field: the struct is named in a closure's bound, and a field is set in a form of any length.
pub fn works_on<'a, 'l, L: TypeLibrary>(
    dictionary: &'a [u8],
    library: &'l L,
    buffer: &[u8],
    form: Numbers,
) -> Result<Working<'a, 'l, L>, Refusal>
    ensures value { MatchResult result (λ w. (working (L.known library.now) dictionary.now buffer.now (plain_numbers form) ≡ Ok (shown_section w.section)) × (w.library.now ≡ library.now) × (w.form ≡ form)) (λ e. working (L.known library.now) dictionary.now buffer.now (plain_numbers form) ≡ Err e) }
    ensures right { IfOk result (λ w. RightSection (L.known library.now) (shown_section w.section)) }
    ensures short { IfOk result (λ w. w.form.length ≤ 16384) }
    ensures bytes { Bytes buffer.now }
{
    seen(buffer);
    let section = working_section(dictionary, library, buffer, form)?;
    Ok(Working {
        library,
        section,
        form,
    })
}

// What a form has to be to be closed: the buffer begins with its frame, no required field is absent, and the frame is no longer than a frame may be.
pub fn check_closed<L: TypeLibrary>(
    dictionary: &[u8],
    library: &L,
    buffer: &[u8],
    form: Numbers,
) -> Result<(), Refusal>
    ensures { result ≡ close_step (L.known library.now) dictionary.now buffer.now (plain_numbers form) }
{
    working_section(dictionary, library, buffer, form)?;
    judge(library, true, dictionary, upto(buffer, form.length))?;
    if form.length > LONGEST {
        return Err(Reason::TooLong.at(0, 0));
    }
    Ok(())
}

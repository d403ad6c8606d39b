// A blank frame put in front of a buffer.
ghost use Rattle.std.specs.Prelude.{◌≡◌, ◌≤◌, length, Some};
ghost use Rattle.moves.specs.Moves.{patched};
ghost use Rattle.schema.specs.Reading.{template_of};
ghost use Rattle.schema.specs.Seen.{block_length};
ghost use Rattle.message.specs.Messages.{header, view_of};
ghost use Rattle.dictionary.specs.Found.{placed_section};
ghost use Rattle.dictionary.specs.Shown.{shown_section};
ghost use Rattle.places.specs.Places.{blank_needed};
ghost use Rattle.blanks.specs.Blanks.{blank_bytes, template_in};
ghost use Rattle.filling.specs.Fits.{RightSection};
ghost use Rattle.steps.specs.Steps.{open_step, open_by, Leaves};

use crate::room::check_room;
use crate::working::Numbers;
use blanks::{put_blank_contents, put_header};
use dictionary::{Found, Section, find};
use lines::{length_at, number_at};
use places::blank_length;
use types::TypeLibrary;
use wire::{Reason, Refusal};

// Puts the blank frame of a form.
fn put_blank_frame<L: TypeLibrary>(
    library: &L,
    buffer: &mut [u8],
    section: Section<'_>,
    schema: u16,
    form: Numbers,
)
    requires right { RightSection (L.known library.now) (shown_section section) }
    requires long { form.length ≡ blank_needed form.version (template_of (shown_section section)) }
    requires room { form.length ≤ length buffer.old }
    requires short { form.length ≤ 16384 }
    ensures { buffer.new ≡ patched 0 (header form.length (block_length form.version (template_of (shown_section section.entry)).root) form.template schema form.version) (patched 12 (blank_bytes (view_of (L.known library.now) (template_in form.version section.entry))) buffer.old) }
{
    put_blank_contents(library, form.version, section, buffer);
    put_header(
        buffer,
        form.length as u16,
        length_at(form.version, section.size, section.body),
        form.template,
        schema,
        form.version,
    );
}

// Puts the blank frame of the template that was found.
fn open_with<L: TypeLibrary>(
    dictionary: &[u8],
    library: &L,
    buffer: &mut [u8],
    template: u16,
    version: u16,
    found: Found<'_>,
) -> Result<usize, Refusal>
    ensures { Leaves (open_by (L.known library.now) dictionary.now buffer.old template version (Some (placed_section found.entry))) result buffer.old buffer.new }
{
    found.check_geometry(library, number_at(dictionary, 5))?;
    let length = blank_length(version, found.section);
    check_room(length, buffer.len())?;
    let form = Numbers {
        template,
        version,
        length,
    };
    put_blank_frame(
        library,
        buffer,
        found.section,
        number_at(dictionary, 3),
        form,
    );
    Ok(length)
}

// Puts the blank frame of a template at a version in front of a buffer: how long it is.
pub fn open_frame<L: TypeLibrary>(
    dictionary: &[u8],
    library: &L,
    buffer: &mut [u8],
    template: u16,
    version: u16,
) -> Result<usize, Refusal>
    ensures { Leaves (open_step (L.known library.now) dictionary.now buffer.old template version) result buffer.old buffer.new }
{
    if version > number_at(dictionary, 5) {
        return Err(Reason::CannotOpen.at(0, 0));
    }
    let found = find(dictionary, template, version).ok_or(Reason::CannotOpen.at(0, 0))?;
    open_with(dictionary, library, buffer, template, version, found)
}

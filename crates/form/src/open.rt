// A form that is being filled in.
ghost use Rattle.std.specs.Prelude.{◌≤◌, length};
ghost use Rattle.types.specs.Meanings.{meaning};
ghost use Rattle.schema.specs.Reading.{template_of, dictionary_of};
ghost use Rattle.dictionary.specs.Shown.{shown_section};
ghost use Rattle.calls.specs.Calls.{Fill, set, clear, append, remove, write, by_buffer, opening, filling, closing};
ghost use Rattle.steps.specs.Steps.{set_step, drop_step, write_step, Leaves};
ghost use Rattle.filling.specs.Fits.{RightSection};
ghost use Rattle.form.specs.Forms.{form_numbers, Opens, Step, IsStepOf, Fills, Changes};

use crate::order_form::{ClosedForm, OpenForm};
use filling::{Numbers, Working, check_closed, open_frame, works_on};
use types::{TypeLibrary, Value};
use wire::Refusal;

// A rule of the project: dictionary, library and buffer are passed at each call.

impl OpenForm {
    // Begins a new message of a template at a version: every field blank, no entries, empty data.
    pub fn open<L: TypeLibrary>(
        dictionary: &[u8],
        library: &L,
        buffer: &mut [u8],
        template: u16,
        version: u16,
    ) -> Result<OpenForm, Refusal>
        ensures { Opens (L.known library.now) (dictionary_of dictionary.now) (opening (L.known library.now) dictionary.now (length buffer.old) template version) result buffer.old buffer.new }
    {
        let length = open_frame(dictionary, library, buffer, template, version)?;
        Ok(OpenForm::of(Numbers {
            template,
            version,
            length,
        }))
    }

    // Takes a step that fills in, where the buffer begins with the form's frame: the frame is then as long as the step leaves it.
    fn fill<L: TypeLibrary, F: FnOnce(&Working<'_, '_, L>, &mut [u8]) -> Result<usize, Refusal>>(
        &mut self,
        dictionary: &[u8],
        library: &L,
        buffer: &mut [u8],
        step: F,
    ) -> Result<(), Refusal>
        requires { (w : _) (b : _) → RightSection (L.known w.now.library.now) (shown_section w.now.section) → w.now.form.length ≤ 16384 → F.pre step w b }
        ensures { (k : Fill) (s : Step) → IsStepOf k s (L.known library.now) dictionary.now buffer.old (form_numbers self.old) → ((w : _) (b : _) (r : _) (b' : _) → F.post step w b r b' → Leaves (s (L.known w.now.library.now) (template_of (shown_section w.now.section)) w.now.form.version w.now.form.length b.now) r b.now b'.now) → Fills (L.known library.now) (dictionary_of dictionary.now) (filling (L.known library.now) dictionary.now (by_buffer (L.known library.now) dictionary.now buffer.old) (length buffer.old) (form_numbers self.old) k) result self.old self.new buffer.old buffer.new }
    {
        let working = works_on(dictionary, library, buffer, self.numbers)?;
        self.numbers.length = step(&working, buffer)?;
        Ok(())
    }

    // Replaces what a field means by a value; the root is group 0, with the one entry 0.
    pub fn set<L: TypeLibrary>(
        &mut self,
        dictionary: &[u8],
        library: &L,
        buffer: &mut [u8],
        group: u32,
        entry: usize,
        tag: u32,
        value: Value<'_>,
    ) -> Result<(), Refusal>
        ensures { Fills (L.known library.now) (dictionary_of dictionary.now) (filling (L.known library.now) dictionary.now (by_buffer (L.known library.now) dictionary.now buffer.old) (length buffer.old) (form_numbers self.old) (set group entry tag (meaning value.entry))) result self.old self.new buffer.old buffer.new }
    {
        // The value borrows, so the closure has to say what it does.
        let put = |on: &Working<'_, '_, L>, buffer: &mut [u8]| -> Result<usize, Refusal>
            ensures { Leaves (set_step (L.known on.now.library.now) (template_of (shown_section on.now.section)) on.now.form.version on.now.form.length buffer.old group entry tag (meaning value.entry)) result buffer.old buffer.new }
        { on.set_field(buffer, group, entry, tag, value) };
        self.fill(dictionary, library, buffer, put)
    }

    // Puts the blank at a field.
    pub fn clear<L: TypeLibrary>(
        &mut self,
        dictionary: &[u8],
        library: &L,
        buffer: &mut [u8],
        group: u32,
        entry: usize,
        tag: u32,
    ) -> Result<(), Refusal>
        ensures { Fills (L.known library.now) (dictionary_of dictionary.now) (filling (L.known library.now) dictionary.now (by_buffer (L.known library.now) dictionary.now buffer.old) (length buffer.old) (form_numbers self.old) (clear group entry tag)) result self.old self.new buffer.old buffer.new }
    {
        self.fill(dictionary, library, buffer, |on, buffer| {
            on.clear_field(buffer, group, entry, tag)
        })
    }

    // Adds a blank entry at the end of a group.
    pub fn append<L: TypeLibrary>(
        &mut self,
        dictionary: &[u8],
        library: &L,
        buffer: &mut [u8],
        group: u32,
    ) -> Result<(), Refusal>
        ensures { Fills (L.known library.now) (dictionary_of dictionary.now) (filling (L.known library.now) dictionary.now (by_buffer (L.known library.now) dictionary.now buffer.old) (length buffer.old) (form_numbers self.old) (append group)) result self.old self.new buffer.old buffer.new }
    {
        self.fill(dictionary, library, buffer, |on, buffer| {
            on.append_entry(buffer, group)
        })
    }

    // Takes the last entry of a group away.
    pub fn drop<L: TypeLibrary>(
        &mut self,
        dictionary: &[u8],
        library: &L,
        buffer: &mut [u8],
        group: u32,
    ) -> Result<(), Refusal>
        ensures { Fills (L.known library.now) (dictionary_of dictionary.now) (filling (L.known library.now) dictionary.now (by_buffer (L.known library.now) dictionary.now buffer.old) (length buffer.old) (form_numbers self.old) (remove group)) result self.old self.new buffer.old buffer.new }
    {
        // What is taken away is so under every library, so the closure has to say under which.
        let take = |on: &Working<'_, '_, L>, buffer: &mut [u8]| -> Result<usize, Refusal>
            requires { on.now.form.length ≤ 16384 }
            ensures { Leaves (drop_step (L.known on.now.library.now) (template_of (shown_section on.now.section)) on.now.form.version on.now.form.length buffer.old group) result buffer.old buffer.new }
        { on.drop_entry(buffer, group) };
        self.fill(dictionary, library, buffer, take)
    }

    // Replaces the bytes of a data.
    pub fn write<L: TypeLibrary>(
        &mut self,
        dictionary: &[u8],
        library: &L,
        buffer: &mut [u8],
        tag: u32,
        content: &[u8],
    ) -> Result<(), Refusal>
        ensures { Fills (L.known library.now) (dictionary_of dictionary.now) (filling (L.known library.now) dictionary.now (by_buffer (L.known library.now) dictionary.now buffer.old) (length buffer.old) (form_numbers self.old) (write tag content.now)) result self.old self.new buffer.old buffer.new }
    {
        // As above.
        let put = |on: &Working<'_, '_, L>, buffer: &mut [u8]| -> Result<usize, Refusal>
            requires { on.now.form.length ≤ 16384 }
            ensures { Leaves (write_step (L.known on.now.library.now) (template_of (shown_section on.now.section)) on.now.form.version on.now.form.length buffer.old tag content.entry.now) result buffer.old buffer.new }
        { on.write_data(buffer, tag, content) };
        self.fill(dictionary, library, buffer, put)
    }

    // Closes the form, unless a required field is absent; the buffer is as it has to be already.
    pub fn close<L: TypeLibrary>(
        self,
        dictionary: &[u8],
        library: &L,
        buffer: &[u8],
    ) -> Result<ClosedForm, (OpenForm, Refusal)>
        ensures { Changes (L.known library.now) (dictionary_of dictionary.now) (closing (L.known library.now) dictionary.now (by_buffer (L.known library.now) dictionary.now buffer.now) (form_numbers self)) result self buffer.now }
    {
        let checked = check_closed(dictionary, library, buffer, self.numbers);
        self.changed(checked)
    }
}

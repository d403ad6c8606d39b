// Patterns put at a field.
ghost use Rattle.std.specs.Prelude.{◌≡◌, ℕ, List, Result, IfErr};
ghost use Rattle.wire.specs.declared.refusal.Refusal.{Refusal};
ghost use Rattle.types.specs.Meanings.{meaning};
ghost use Rattle.types.specs.Answers.{patterned, pattern_of};
ghost use Rattle.schema.specs.Reading.{template_of};
ghost use Rattle.dictionary.specs.Shown.{shown_section};
ghost use Rattle.places.specs.Places.{PlacedField};
ghost use Rattle.steps.specs.Steps.{patch_field, set_step, clear_step, Leaves};

use crate::room::put_in;
use crate::working::Working;
use places::field_place;
use types::{Pattern, TypeLibrary, Value};
use wire::{Refusal, located, upto};

impl<L: TypeLibrary> Working<'_, '_, L> {
    // Puts at a field the pattern that is answered for its type, by number and argument: how long the frame is.
    fn put_pattern<F: FnOnce(u8, &[u8]) -> Result<Pattern, Refusal>>(
        &self,
        buffer: &mut [u8],
        group: u32,
        entry: usize,
        tag: u32,
        pattern: F,
    ) -> Result<usize, Refusal>
        requires callable { F.IsAlwaysCallable pattern }
        requires no_place { (number : ℕ) (a : _) (r : _) → F.post pattern number a r → IfErr r (λ e. e.place ≡ 0) }
        ensures { (answer : PlacedField → Result (List ℕ) Refusal) → ((f : PlacedField) (a : _) (r : _) → a.now ≡ f.field.argument → F.post pattern f.field.type a r → patterned r ≡ answer f) → Leaves (patch_field (L.known self.now.library.now) (template_of (shown_section self.now.section)) self.now.form.version self.now.form.length buffer.old answer group entry tag) result buffer.old buffer.new }
    {
        let f = field_place(
            self.form.version,
            upto(buffer, self.form.length),
            self.section,
            group,
            entry,
            tag,
        )?;
        let answer = pattern(f.field.number, f.field.argument);
        let bytes = located(answer, f.place, tag)?;
        put_in(buffer, f.place, bytes.as_bytes());
        Ok(self.form.length)
    }

    // Puts the pattern of a value at a field: how long the frame is.
    pub fn set_field(
        &self,
        buffer: &mut [u8],
        group: u32,
        entry: usize,
        tag: u32,
        value: Value<'_>,
    ) -> Result<usize, Refusal>
        ensures { Leaves (set_step (L.known self.now.library.now) (template_of (shown_section self.now.section)) self.now.form.version self.now.form.length buffer.old group entry tag (meaning value.entry)) result buffer.old buffer.new }
    {
        // The value borrows, so the closure has to say what it answers.
        let library = self.library;
        let written = |number: u8, argument: &[u8]| -> Result<Pattern, Refusal>
            ensures { patterned result ≡ pattern_of (L.known library.entry.now number argument.now) (meaning value.entry) }
        { library.write(number, argument, value) };
        self.put_pattern(buffer, group, entry, tag, written)
    }

    // Puts the blank at a field: how long the frame is.
    pub fn clear_field(
        &self,
        buffer: &mut [u8],
        group: u32,
        entry: usize,
        tag: u32,
    ) -> Result<usize, Refusal>
        ensures { Leaves (clear_step (L.known self.now.library.now) (template_of (shown_section self.now.section)) self.now.form.version self.now.form.length buffer.old group entry tag) result buffer.old buffer.new }
    {
        self.put_pattern(buffer, group, entry, tag, |number, argument| {
            self.library.blank(number, argument)
        })
    }
}

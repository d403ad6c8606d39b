// Entries added to a group and taken away.
ghost use Rattle.std.specs.Prelude.{◌≡◌, ◌+◌, ◌-◌, ◌*◌, ◌^◌, ◌<◌, ◌≤◌, [], ◌∷◌, length, nat_lt};
ghost use Rattle.wire.specs.Numbers.{le_bytes};
ghost use Rattle.types.specs.Kinds.{Known};
ghost use Rattle.schema.specs.Reading.{template_of};
ghost use Rattle.schema.specs.Seen.{seen_fields};
ghost use Rattle.message.specs.Messages.{block_view};
ghost use Rattle.dictionary.specs.Shown.{shown_section};
ghost use Rattle.lines.specs.Held.{fields_in};
ghost use Rattle.blanks.specs.Blanks.{Fitting, blank_block, block_in};
ghost use Rattle.filling.specs.Fits.{RightSection};
ghost use Rattle.steps.specs.Steps.{patched_in, shifted_in, append_step, drop_step, Leaves};

use crate::room::{check_room, is_within, put_in, put_length, shift_in};
use crate::working::Working;
use blanks::put_blank_block;
use places::{GroupPlace, group_place};
use types::TypeLibrary;
use wire::{Reason, Refusal, upto};

// At most 254 entries. A limit stands in each crate that holds to it, so that an edit of it proves that crate alone.
const MOST_ENTRIES: usize = 254;

fn takes_another(count: usize) -> bool
    ensures { result ≡ nat_lt count 254 }
{
    count < MOST_ENTRIES
}

// Where the first `count` entries of a group end.
fn entries_end(g: GroupPlace<'_>, count: usize) -> usize
    requires { count ≤ 255 }
    ensures { result ≡ g.entry.place + 3 + count * g.entry.size }
{
    g.place + 3 + count * g.size
}

// Puts how many entries a group has, and how long the frame is.
fn put_count(buffer: &mut [u8], g: GroupPlace<'_>, count: usize, whole: u16)
    requires { count ≤ 255 }
    ensures { buffer.new ≡ patched_in 0 (le_bytes 2 whole) (patched_in (g.entry.place + 2) (count ∷ []) buffer.old) }
{
    put_in(buffer, g.place + 2, &[count as u8]);
    put_length(buffer, whole);
}

impl<L: TypeLibrary> Working<'_, '_, L> {
    // A blank entry of a group at p, where there is room for it.
    fn put_blank_in(&self, g: GroupPlace<'_>, buffer: &mut [u8], p: usize)
        requires { Fitting (L.known self.now.library.now) 0 (seen_fields self.now.form.version (fields_in g.lines.now)) g.size }
        ensures { buffer.new ≡ patched_in p (blank_block (block_view (L.known self.now.library.now) (block_in self.now.form.version g.entry.size g.entry.lines.now))) buffer.old }
    {
        if is_within(buffer.len(), p, g.size) {
            put_blank_block(self.library, self.form.version, g.size, g.lines, buffer, p);
        }
    }

    // Puts a blank entry behind the others, in a frame that has `whole` bytes then: what follows the group moves.
    fn add_entry(&self, buffer: &mut [u8], whole: u16, g: GroupPlace<'_>)
        requires few { g.count < 254 }
        requires fit { Fitting (L.known self.now.library.now) 0 (seen_fields self.now.form.version (fields_in g.lines.now)) g.size }
        ensures { buffer.new ≡ patched_in 0 (le_bytes 2 whole) (patched_in (g.entry.place + 2) ((g.entry.count + 1) ∷ []) (patched_in (g.entry.place + 3 + g.entry.count * g.entry.size) (blank_block (block_view (L.known self.now.library.now) (block_in self.now.form.version g.entry.size g.entry.lines.now))) (shifted_in (g.entry.place + 3 + g.entry.count * g.entry.size) self.now.form.length (g.entry.place + 3 + (g.entry.count + 1) * g.entry.size) buffer.old))) }
    {
        let end = entries_end(g, g.count);
        shift_in(buffer, end, self.form.length, entries_end(g, g.count + 1));
        self.put_blank_in(g, buffer, end);
        put_count(buffer, g, g.count + 1, whole);
    }

    // Puts a blank entry behind the others of a group: how long the frame is then.
    pub fn append_entry(&self, buffer: &mut [u8], group: u32) -> Result<usize, Refusal>
        requires right { RightSection (L.known self.now.library.now) (shown_section self.now.section) }
        requires short { self.now.form.length ≤ 16384 }
        ensures { Leaves (append_step (L.known self.now.library.now) (template_of (shown_section self.now.section)) self.now.form.version self.now.form.length buffer.old group) result buffer.old buffer.new }
    {
        let long = self.form.length;
        let g = group_place(self.form.version, upto(buffer, long), self.section, group)?;
        if !takes_another(g.count) {
            return Err(Reason::Full.at(g.place + 2, group));
        }
        let whole = long + g.size;
        check_room(whole, buffer.len())?;
        self.add_entry(buffer, whole as u16, g);
        Ok(whole)
    }
}

impl<L> Working<'_, '_, L> {
    // Takes the last entry away, in a frame that has `whole` bytes then: what follows the group moves. No function with add_entry: that puts a blank between the move and the count, so one with a closure for the blank would be no shorter.
    fn remove_entry(&self, buffer: &mut [u8], whole: u16, g: GroupPlace<'_>)
        requires { 0 < g.count }
        ensures { buffer.new ≡ patched_in 0 (le_bytes 2 whole) (patched_in (g.entry.place + 2) ((g.entry.count - 1) ∷ []) (shifted_in (g.entry.place + 3 + g.entry.count * g.entry.size) self.now.form.length (g.entry.place + 3 + (g.entry.count - 1) * g.entry.size) buffer.old)) }
    {
        let end = entries_end(g, g.count);
        shift_in(buffer, end, self.form.length, entries_end(g, g.count - 1));
        put_count(buffer, g, g.count - 1, whole);
    }

    // Takes the last entry of a group away: how long the frame is then.
    pub fn drop_entry(&self, buffer: &mut [u8], group: u32) -> Result<usize, Refusal>
        requires { self.now.form.length ≤ 16384 }
        ensures { (known : Known) → Leaves (drop_step known (template_of (shown_section self.now.section)) self.now.form.version self.now.form.length buffer.old group) result buffer.old buffer.new }
    {
        let long = self.form.length;
        let g = group_place(self.form.version, upto(buffer, long), self.section, group)?;
        if g.count == 0 {
            return Err(Reason::NotFound.at(0, group));
        }
        let whole = long.saturating_sub(g.size);
        self.remove_entry(buffer, whole as u16, g);
        Ok(whole)
    }
}

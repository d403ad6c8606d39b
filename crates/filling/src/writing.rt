// The content of a data replaced.
ghost use Rattle.std.specs.Prelude.{◌≡◌, ◌+◌, ◌-◌, ◌^◌, ◌<◌, ◌≤◌, [], ◌∷◌, length, nat_le};
ghost use Rattle.wire.specs.Numbers.{le_bytes};
ghost use Rattle.types.specs.Kinds.{Known};
ghost use Rattle.schema.specs.Reading.{template_of};
ghost use Rattle.dictionary.specs.Shown.{shown_section};
ghost use Rattle.steps.specs.Steps.{patched_in, shifted_in, write_step, Leaves};

use crate::room::{check_room, put_in, put_length, shift_in};
use crate::working::Working;
use places::{PartPlace, part_place};
use wire::{Reason, Refusal, upto};

// Whether a content is not too long.
fn is_short(count: usize, longest: u8) -> bool
    ensures { result ≡ nat_le count longest }
{
    count <= longest as usize
}

impl<L> Working<'_, '_, L> {
    // Puts the content x at a data, whose frame is then `whole` bytes long: what follows it moves.
    fn put_content(&self, buffer: &mut [u8], whole: u16, d: PartPlace, x: &[u8])
        requires { length x.now ≤ 255 }
        ensures { buffer.new ≡ patched_in 0 (le_bytes 2 whole) (patched_in (d.place + 1) x.now (patched_in d.place (length x.now ∷ []) (shifted_in (d.place + 1 + d.count) self.now.form.length (d.place + 1 + length x.now) buffer.old))) }
    {
        let begin = d.place + 1;
        shift_in(buffer, begin + d.count, self.form.length, begin + x.len());
        put_in(buffer, d.place, &[x.len() as u8]);
        put_in(buffer, begin, x);
        put_length(buffer, whole);
    }

    // Puts the content x at a data: how long the frame is then.
    pub fn write_data(&self, buffer: &mut [u8], tag: u32, x: &[u8]) -> Result<usize, Refusal>
        requires { self.now.form.length ≤ 16384 }
        ensures { (known : Known) → Leaves (write_step known (template_of (shown_section self.now.section)) self.now.form.version self.now.form.length buffer.old tag x.now) result buffer.old buffer.new }
    {
        let long = self.form.length;
        let d = part_place(self.form.version, upto(buffer, long), self.section, tag)?;
        if !is_short(x.len(), d.part.longest) {
            return Err(Reason::Full.at(d.place, tag));
        }
        let whole = long.saturating_sub(d.count) + x.len();
        check_room(whole, buffer.len())?;
        self.put_content(buffer, whole as u16, d, x);
        Ok(whole)
    }
}

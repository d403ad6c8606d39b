// The fields of a block.
ghost use Rattle.std.specs.Prelude.{◌≡◌, ◌+◌, ◌^◌, ◌<◌};
ghost use Rattle.schema.specs.Seen.{seen_fields};
ghost use Rattle.lines.specs.Held.{fields_in};
ghost use Rattle.places.specs.Places.{field_at};
ghost use Rattle.places.specs.Shown.{shown_field_place};

use crate::place::FieldPlace;
use crate::refusing::no_such;
use lines::SeenFields;
use wire::Refusal;

// The first field with the tag, of a block that begins at `base`: one of those that the lines begin with, as they are seen at u.
pub fn field_at<'a>(
    u: u16,
    base: usize,
    lines: &'a [u8],
    tag: u32,
) -> Result<FieldPlace<'a>, Refusal>
    requires { base < 2 ^ 63 + 2 ^ 62 + 2 ^ 60 }
    ensures { shown_field_place result ≡ field_at base (seen_fields u (fields_in lines.now)) tag }
{
    let field = SeenFields::of(u, lines)
        .find(|f| f.tag == tag)
        .ok_or(no_such(tag))?;
    Ok(FieldPlace {
        place: base + usize::from(field.offset),
        field,
    })
}

// Whether the templates of two dictionaries are the same.
ghost use Rattle.std.specs.Prelude.{◌≡◌};
ghost use Rattle.schema.specs.Reading.{template_of};
ghost use Rattle.schema.specs.Seen.{seen_template, seen};
ghost use Rattle.dictionary.specs.Shown.{shown_section};
ghost use Rattle.edition.specs.Same.{same_lists, same_template};
ghost use Rattle.lines.specs.Held.{templates_in};

use crate::fields::same_fields;
use crate::groups::same_groups;
use crate::lists::eq_by;
use crate::parts::same_parts;
use dictionary::Section;
use lines::{SeenTemplates, Templates, length_at};

// A version and two parts of dictionaries stay three parameters: each function takes other parts, and a struct of the three would be made anew in each.

// Whether the later template seen at v is the earlier one.
fn same_template(v: u16, later: Section<'_>, earlier: Section<'_>) -> bool
    ensures { result ≡ same_template (seen_template v (template_of (shown_section later.entry))) (template_of (shown_section earlier.entry)) }
{
    later.number == earlier.number
        && later.since == earlier.since
        && length_at(v, later.size, later.body) == earlier.size
        && same_fields(v, later.body, earlier.body)
        && same_groups(v, later.body, earlier.body)
        && same_parts(v, later.body, earlier.body)
}

// Whether the later templates seen at v are the earlier ones.
pub fn same_templates(v: u16, later: &[u8], earlier: &[u8]) -> bool
    ensures { result ≡ same_lists same_template (seen v (templates_in later.now)) (templates_in earlier.now) }
{
    eq_by(
        SeenTemplates::of(v, later),
        Templates::of(earlier),
        |a, b| { same_template(v, a, b) },
    )
}

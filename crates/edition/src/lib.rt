// Editions: whether one dictionary is an earlier edition of another.
#![tactic(auto)]

ghost use Rattle.std.specs.Prelude.{◌≡◌, ℕ, ◌≤◌, true, Decides};
ghost use Rattle.types.specs.Kinds.{Known};
ghost use Rattle.schema.specs.Reading.{version_of, dictionary_of};
ghost use Rattle.schema.specs.Seen.{seen};
ghost use Rattle.schema.specs.Editions.{EarlierEdition};
ghost use Rattle.schema.specs.Laws.{EditionsAgree};
ghost use Rattle.edition.specs.Earlier.{is_earlier};

mod fields;
mod groups;
mod lists;
mod parts;
mod templates;

use lines::number_at;
use templates::same_templates;
use wire::beyond;

// The rules of an earlier edition, on bytes: a schema id at 3, a version at 5, templates from 7 on.
fn is_earlier(earlier: &[u8], later: &[u8]) -> bool
    ensures { result ≡ is_earlier earlier.now later.now }
{
    let version = number_at(earlier, 5);
    number_at(earlier, 3) == number_at(later, 3)
        && version <= number_at(later, 5)
        && same_templates(version, beyond(later, 7), beyond(earlier, 7))
}

// Whether the dictionary that the earlier bytes are is an earlier edition of the one that the later bytes are: the same schema id, no version above the later one, and exactly the templates, lines and block lengths that the later one shows at that version.
// Any bytes are read, checked or not. The laws of editions hold under every library.
pub fn earlier_edition(earlier: &[u8], later: &[u8]) -> bool
    ensures decides { Decides result (EarlierEdition (dictionary_of earlier.now) (dictionary_of later.now)) }
    ensures shows { result ≡ true → (u : ℕ) → u ≤ version_of earlier.now → seen u (dictionary_of earlier.now).templates ≡ seen u (dictionary_of later.now).templates }
    ensures agree { (known : Known) → EditionsAgree known }
{
    is_earlier(earlier, later)
}

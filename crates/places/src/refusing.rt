// What is told where nothing is found.
ghost use Rattle.std.specs.Prelude.{◌≡◌};
ghost use Rattle.places.specs.Shown.{none_such};

use wire::{Reason, Refusal};

// There is no such group, entry or tag.
pub fn no_such(tag: u32) -> Refusal
    ensures { result ≡ none_such tag }
{
    Reason::NotFound.at(0, tag)
}

// The two libraries that ship, numbers and text, as one.
#![tactic(auto)]

ghost use Rattle.std.specs.Prelude.{◌≡◌};
ghost use Rattle.base.specs.Known.{knows_of};

use numbers::Numbers;
use text::Texts;
use types::Joined;

// The number types 1 to 8 and the text types 65 and 66.
pub const BASE: Joined<Numbers, Texts> = Joined {
    left: Numbers,
    right: Texts,
};

// Whether a type is known by its number and argument.
pub fn knows(number: u8, argument: &[u8]) -> bool
    ensures { result ≡ knows_of number argument.now }
{
    BASE.left.knows(number, argument) || BASE.right.knows(number, argument)
}

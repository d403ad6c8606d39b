// The interface of a type library.
ghost use Rattle.std.specs.Prelude.{◌≡◌, ℕ, List};
ghost use Rattle.types.specs.Kinds.{Known, AllLawful};
ghost use Rattle.types.specs.Meanings.{meaning};
ghost use Rattle.types.specs.Answers.{meant, patterned, width_of, blank_of, read_of, pattern_of};

use crate::pattern::Pattern;
use crate::value::Value;
use wire::Refusal;

// Types by number and argument. Every refusal of a library has place 0 and tag 0: who asks adds its own.
// A rule of the project: a library is asked by number and argument.
pub trait TypeLibrary {
    // What the library knows.
    ghost known: { Self → Known };

    // The width of the type's patterns.
    fn width(&self, number: u8, argument: &[u8]) -> Result<usize, Refusal>
        ensures { result ≡ width_of (known self.now number argument.now) };

    // The pattern that a cleared field holds.
    fn blank(&self, number: u8, argument: &[u8]) -> Result<Pattern, Refusal>
        ensures { patterned result ≡ blank_of (known self.now number argument.now) };

    // What the bytes mean: a value, or None for absent.
    fn read<'a>(
        &self,
        number: u8,
        argument: &[u8],
        bytes: &'a [u8],
    ) -> Result<Option<Value<'a>>, Refusal>
        ensures { meant result ≡ read_of (known self.now number argument.now) bytes.now };

    // The pattern that means the value.
    fn write(&self, number: u8, argument: &[u8], value: Value<'_>) -> Result<Pattern, Refusal>
        ensures { patterned result ≡ pattern_of (known self.now number argument.now) (meaning value.entry) };

    ghost lawful: { (l : Self) → AllLawful (known l) };
}

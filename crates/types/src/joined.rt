// Two libraries as one.
ghost use Rattle.std.specs.Prelude.{◌↔◌, IsTrue, IsSome};
ghost use Rattle.types.specs.Kinds.{joined};
ghost use Rattle.types.specs.Joining.{joined_lawful};

use crate::library::TypeLibrary;
use crate::pattern::Pattern;
use crate::value::Value;
use wire::Refusal;

// The left library answers for each type that it knows, the right one for the rest.
#[derive(Clone, Copy)]
pub struct Joined<A, B> {
    pub left: A,
    pub right: B,
}

impl<A: TypeLibrary, B: TypeLibrary> Joined<A, B> {
    // Whether the left library knows the type.
    fn is_left(&self, number: u8, argument: &[u8]) -> bool
        ensures { IsTrue result ↔ IsSome (A.TypeLibrary.known self.now.left number argument.now) }
    {
        self.left.width(number, argument).is_ok()
    }
}

impl<A: TypeLibrary, B: TypeLibrary> TypeLibrary for Joined<A, B> {
    ghost known = { λ l. joined (A.TypeLibrary.known l.left) (B.TypeLibrary.known l.right) };

    ghost lawful = { λ l. joined_lawful (A.TypeLibrary.known l.left) (B.TypeLibrary.known l.right) (A.TypeLibrary.lawful l.left) (B.TypeLibrary.lawful l.right) };

    fn width(&self, number: u8, argument: &[u8]) -> Result<usize, Refusal> {
        let left = self.left.width(number, argument);
        left.or_else(|_| self.right.width(number, argument))
    }

    fn blank(&self, number: u8, argument: &[u8]) -> Result<Pattern, Refusal> {
        let left = self.left.blank(number, argument);
        left.or_else(|_| self.right.blank(number, argument))
    }

    fn read<'a>(
        &self,
        number: u8,
        argument: &[u8],
        bytes: &'a [u8],
    ) -> Result<Option<Value<'a>>, Refusal> {
        if self.is_left(number, argument) {
            self.left.read(number, argument, bytes)
        } else {
            self.right.read(number, argument, bytes)
        }
    }

    fn write(&self, number: u8, argument: &[u8], value: Value<'_>) -> Result<Pattern, Refusal> {
        if self.is_left(number, argument) {
            self.left.write(number, argument, value)
        } else {
            self.right.write(number, argument, value)
        }
    }
}

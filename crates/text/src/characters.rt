// Characters and zeros.
ghost use Rattle.std.specs.Prelude.{◌≡◌, ◌≤◌, length};
ghost use Rattle.std.specs.List.{prefix_len};
ghost use Rattle.text.specs.Texts.{character, only_zeros};

// The first character, a blank.
const FIRST: u8 = 0x20;

// The last character, a tilde.
const LAST: u8 = 0x7E;

// Whether a byte is a character.
fn is_character(b: u8) -> bool
    ensures { result ≡ character b }
{
    (FIRST..=LAST).contains(&b)
}

// How many characters come first.
pub(crate) fn front(s: &[u8]) -> usize
    ensures value { result ≡ prefix_len character s.now }
    ensures bound { result ≤ length s.now }
{
    s.iter().take_while(|b| is_character(**b)).count()
}

// Whether there are only zeros.
pub(crate) fn is_zero(s: &[u8]) -> bool
    ensures { result ≡ only_zeros s.now }
{
    s.iter().all(|b| *b == 0)
}

// The check of a whole dictionary.
ghost use Rattle.std.specs.Prelude.{◌≡◌, ◌≤◌, length};
ghost use Rattle.schema.specs.Reading.{verdict, dictionary_length};
ghost use Rattle.dictionary.specs.Steps.{rounds};
ghost use Rattle.schema.specs.Laws.{PassesExactlyAsWrittenOut};

use crate::geometry::Geometry;
use crate::line::number_at;
use crate::section::check_sections;
use types::TypeLibrary;
use wire::{Reason, Refusal, seen, tail};

// A dictionary has its head of 7 bytes and at most 32,000 bytes.
const HEAD: usize = 7;

const LONGEST: usize = 32000;

fn is_dictionary_length(n: usize) -> bool
    ensures { result ≡ dictionary_length n }
{
    HEAD <= n && n <= LONGEST
}

// Shape and names of all templates, then types and geometry of all.
fn check_rounds<L: TypeLibrary>(dictionary: &[u8], library: &L) -> Result<(), Refusal>
    requires least { 7 ≤ length dictionary.now }
    requires most { length dictionary.now ≤ 32000 }
    ensures { result ≡ rounds (L.known library.now) dictionary.now }
{
    let templates = tail(dictionary, 7);
    check_sections(templates)?;
    let version = number_at::<2>(dictionary, 5) as u16;
    Geometry { library, version }.check_sections(templates)
}

// The first broken rule of a dictionary, or that there is none.
fn judge<L: TypeLibrary>(dictionary: &[u8], library: &L) -> Result<(), Refusal>
    ensures { result ≡ verdict (L.known library.now) dictionary.now }
{
    if !is_dictionary_length(dictionary.len())
        || number_at::<2>(dictionary, 1) as usize != dictionary.len()
    {
        return Err(Reason::DictionarySize.at(0, 0));
    }
    if dictionary[0] != 1 {
        return Err(Reason::Layout.at(0, 0));
    }
    check_rounds(dictionary, library)
}

// Checks a dictionary: its size and layout, then shape and names of all its lines, then types and geometry of all.
pub fn check<L: TypeLibrary>(dictionary: &[u8], library: &L) -> Result<(), Refusal>
    ensures value { result ≡ verdict (L.known library.now) dictionary.now }
    ensures exact { PassesExactlyAsWrittenOut (L.known library.now) dictionary.now }
{
    seen(dictionary);
    judge(dictionary, library)
}

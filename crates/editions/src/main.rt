// Says whether one dictionary is an earlier edition of another.
#![tactic(auto)]

ghost use Rattle.std.specs.Prelude.{◌≡◌, Some};
ghost use Rattle.base.specs.Known.{base_kinds};
ghost use Rattle.schema.specs.Reading.{verdict};
ghost use Rattle.editions.specs.Outcomes.{Judged};
ghost use Rattle.editions.specs.Written.{written};

use anyhow::anyhow;
use base::BASE;
use dictionary::check;
use edition::earlier_edition;
use printing::PlaceAndNumber;
use std::{env, fmt, fs};
use types::TypeLibrary;
use wire::Refusal;

const USAGE: &str = "usage: editions EARLIER LATER";

// What is said of two dictionaries. No Result: a refusal is one of the answers that are printed.
#[derive(Clone, Copy)]
enum Outcome {
    Earlier,
    NotEarlier,
    // The first of the two is refused, or else the second.
    FirstRefused(Refusal),
    SecondRefused(Refusal),
}

impl fmt::Display for Outcome {
    ghost output = { λ x. Some (written x) };

    fn fmt<W: fmt::Write>(&self, f: &mut fmt::Formatter<W>) -> fmt::Result {
        match *self {
            Outcome::Earlier => write!(f, "earlier edition"),
            Outcome::NotEarlier => write!(f, "not an earlier edition"),
            Outcome::FirstRefused(refusal) => write!(f, "D 1 {}", PlaceAndNumber(refusal)),
            Outcome::SecondRefused(refusal) => write!(f, "D 2 {}", PlaceAndNumber(refusal)),
        }
    }
}

// The refusal of the first or else of the second, or whether the one is an earlier edition of the other.
fn judge(earlier: &[u8], later: &[u8]) -> Outcome
    ensures { Judged (verdict base_kinds earlier.now) (verdict base_kinds later.now) earlier.now later.now result }
{
    if let Err(refusal) = check(earlier, &BASE) {
        return Outcome::FirstRefused(refusal);
    }
    if let Err(refusal) = check(later, &BASE) {
        return Outcome::SecondRefused(refusal);
    }
    if earlier_edition(earlier, later) {
        Outcome::Earlier
    } else {
        Outcome::NotEarlier
    }
}

// The bytes of a file, or an error that names it.
fn bytes_of(rt: &HostRuntime, name: &str) -> anyhow::Result<Vec<u8>> {
    fs::read(rt, name).try_map_err(|e| Ok(anyhow!(format!(in rt.alloc(); "{name}: {e}")?)))
}

// Reads the two files that are named, and prints what is said of them.
fn run(rt: &HostRuntime) -> anyhow::Result<()> {
    let words: Vec<String> = env::args(rt)?.collect(rt.alloc())?;
    let [_, first, second] = words.as_slice() else {
        return Err(anyhow!(USAGE));
    };
    let earlier = bytes_of(rt, first.as_str())?;
    let later = bytes_of(rt, second.as_str())?;
    let outcome = judge(earlier.as_slice(), later.as_slice());
    println!(rt; "{outcome}")?;
    Ok(())
}

fn main(rt: HostRuntime) -> anyhow::Result<()> {
    run(&rt)
}

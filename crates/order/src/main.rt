// Fills in forms as a script says.
#![tactic(auto)]

mod command;
mod making;
mod shown;
mod words;

use base::BASE;
use dictionary::check;
use making::{LONGEST, play};
use printing::{read_dictionary, read_start};
use shown::dictionary_line;
use types::TypeLibrary;

// Reads the dictionary and, unless it is refused, the script, and does what that says.
fn run(rt: &HostRuntime) -> anyhow::Result<()> {
    let dictionary = read_dictionary(rt)?;
    if let Err(refusal) = check(dictionary.as_slice(), &BASE) {
        rt.println(dictionary_line(refusal))?;
        return Ok(());
    }
    let script = read_start(rt.alloc(), rt.stdin(), LONGEST + 1)?;
    play(rt, dictionary.as_slice(), script.as_slice())
}

fn main(rt: HostRuntime) -> anyhow::Result<()> {
    run(&rt)
}

// What the check answers for a dictionary, as a line.
use crate::draft::{Case, bytes_of};
use crate::worked::{Changed, bytes_after};
use base::BASE;
use dictionary::check;

// Prints the label and what the check answers for the bytes: ok, or number, place and tag of the refusal.
pub fn bytes(rt: &HostRuntime, label: &str, dictionary: &[u8]) -> anyhow::Result<()> {
    match check(dictionary, &BASE) {
        Ok(()) => println!(rt; "{label}: ok")?,
        Err(refusal) => println!(rt; "{label}: {refusal}")?,
    }
    Ok(())
}

// The same for each of the dictionaries of templates.
pub fn cases(rt: &HostRuntime, all: &[Case]) -> anyhow::Result<()> {
    for case in all {
        let made = bytes_of(rt.alloc(), case.1)?;
        bytes(rt, case.0, made.as_slice())?;
    }
    Ok(())
}

// The same for each of the changes of the worked dictionary. What the two share is a line for each case: a trait for the two kinds of case would be longer.
pub fn changes(rt: &HostRuntime, all: &[Changed]) -> anyhow::Result<()> {
    for case in all {
        let made = bytes_after(rt.alloc(), case.1, case.2)?;
        bytes(rt, case.0, made.as_slice())?;
    }
    Ok(())
}

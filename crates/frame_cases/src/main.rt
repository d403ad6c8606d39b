// Does what the file cases.txt says: accepts frames that break one rule or another and those at the edge of a rule, reads and walks some, and prints a line for each answer.
#![tactic(auto)]

mod answers;
mod edit;
mod shown;

use crate::answers::{checked, judged, read, walked};
use crate::edit::{bytes_of, edited_dictionary, edited_frame};
use base::BASE;
use std::fs;
use text::Texts;
use types::TypeLibrary;

// The dictionary and the frame at hand.
#[derive(Drop)]
struct Bench {
    dictionary: Vec<u8>,
    frame: Vec<u8>,
}

// A case: the frame with some changes, under the dictionary with some changes.
fn case(rt: &HostRuntime, bench: &Bench, label: &str, words: &str) -> anyhow::Result<()> {
    let dictionary = edited_dictionary(rt.alloc(), bench.dictionary.as_slice(), words)?;
    let frame = edited_frame(rt.alloc(), bench.frame.as_slice(), words)?;
    judged(rt, label, dictionary.as_slice(), frame.as_slice())
}

// What is asked of the dictionary and the frame at hand.
fn asked(rt: &HostRuntime, bench: &Bench, label: &str, words: &str) -> anyhow::Result<()> {
    let dictionary = bench.dictionary.as_slice();
    let frame = bench.frame.as_slice();
    let library = BASE;
    match label {
        "check" => checked(rt, words, dictionary),
        "read" => read(rt, &library, label, words, dictionary, frame),
        "read with texts" => read(rt, &Texts, label, words, dictionary, frame),
        "walk" => walked(rt, &library, dictionary, frame),
        _ => case(rt, bench, label, words),
    }
}

// A line of the file.
fn line(rt: &HostRuntime, bench: &mut Bench, label: &str, words: &str) -> anyhow::Result<()> {
    match label {
        "dictionary" => bench.dictionary = bytes_of(rt.alloc(), words)?,
        "frame" => bench.frame = bytes_of(rt.alloc(), words)?,
        "dictionary file" => bench.dictionary = fs::read(rt, words)?,
        "frame file" => bench.frame = fs::read(rt, words)?,
        _ => asked(rt, bench, label, words)?,
    }
    Ok(())
}

fn run(rt: &HostRuntime) -> anyhow::Result<()> {
    let text = fs::read_to_string(rt, "cases.txt")?;
    let mut bench = Bench {
        dictionary: Vec::new(rt.alloc()),
        frame: Vec::new(rt.alloc()),
    };
    for row in text.as_str().lines() {
        if let Some((label, words)) = row.split_once("|") {
            line(rt, &mut bench, label.trim(), words.trim())?;
        }
    }
    Ok(())
}

fn main(rt: HostRuntime) -> anyhow::Result<()> {
    run(&rt)
}

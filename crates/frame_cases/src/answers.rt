// What the calls answer, as lines.
use crate::shown::Named;
use base::BASE;
use dictionary::check;
use frame::{Frame, Item, Reading, Walk, accept};
use numbers::Numbers;
use printing::Hex;
use std::str::FromStr;
use text::Texts;
use types::{Joined, TypeLibrary};

// Whether the dictionary passes the check.
pub fn checked(rt: &HostRuntime, label: &str, dictionary: &[u8]) -> anyhow::Result<()> {
    match check(dictionary, &BASE) {
        Ok(()) => println!(rt; "check {label}: ok")?,
        Err(refusal) => println!(rt; "check {label}: {refusal}")?,
    }
    Ok(())
}

// Dictionary and frame are passed as acceptance takes them; a case's are not those at hand.

// Whether the frame is accepted.
pub fn judged<'a>(
    rt: &HostRuntime,
    label: &str,
    dictionary: &'a [u8],
    frame: &'a [u8],
) -> anyhow::Result<()> {
    match accept(dictionary, &BASE, frame) {
        Ok(_) => println!(rt; "{label}: accepted")?,
        Err(refusal) => println!(rt; "{label}: {refusal}")?,
    }
    Ok(())
}

// Where something is read: a group, an entry and a tag.
#[derive(Clone, Copy)]
struct Place {
    group: u32,
    entry: usize,
    tag: u32,
}

// A word as a number; 0 for what is none.
pub(crate) fn number_of<T: FromStr + Default>(word: Option<&str>) -> T
where
    T: Drop,
    T::Err: Drop,
{
    word.and_then(|w| w.parse().ok()).unwrap_or_default()
}

// The place that words say.
fn place_of(words: &str) -> Place {
    let mut parts = words.split_whitespace();
    Place {
        group: number_of(parts.next()),
        entry: number_of(parts.next()),
        tag: number_of(parts.next()),
    }
}

// What an accepted frame has at a place.
fn read_at<L: TypeLibrary>(
    rt: &HostRuntime,
    library: &L,
    frame: Frame<'_>,
    at: Place,
) -> anyhow::Result<()> {
    match frame.read(library, at.group, at.entry, at.tag) {
        Ok(Reading::Absent) => println!(rt; "-")?,
        Ok(Reading::Value(value)) => println!(rt; "{}", Named(Some(value)))?,
        Ok(Reading::Data(bytes)) => println!(rt; "data {}", Hex(bytes))?,
        Err(refusal) => println!(rt; "{refusal}")?,
    }
    Ok(())
}

// The words are group, entry and tag.
pub fn read<'a, L: TypeLibrary>(
    rt: &HostRuntime,
    library: &L,
    label: &str,
    words: &str,
    dictionary: &'a [u8],
    frame: &'a [u8],
) -> anyhow::Result<()> {
    let at = place_of(words);
    print!(rt; "{label} {} {} {}: ", at.group, at.entry, at.tag)?;
    match accept(dictionary, &BASE, frame) {
        Ok(accepted) => read_at(rt, library, accepted, at)?,
        Err(_) => println!(rt; "not accepted")?,
    }
    Ok(())
}

// An item: its place, its tag, and what it holds.
fn item(rt: &HostRuntime, item: Item<'_>) -> anyhow::Result<()> {
    match item {
        Item::Field {
            place,
            tag,
            number,
            argument,
            bytes,
        } => match BASE.read(number, argument, bytes) {
            Ok(value) => println!(rt; "{place} {tag} {}", Named(value))?,
            Err(_) => println!(rt; "{place} {tag} no pattern")?,
        },
        Item::Group {
            place,
            tag,
            count,
            ..
        } => println!(rt; "{place} {tag} group of {count}")?,
        Item::Data {
            place,
            tag,
            content,
        } => println!(rt; "{place} {tag} data {}", Hex(content))?,
        Item::End => println!(rt; "end")?,
    }
    Ok(())
}

// The first items that are left of a walk, as far as the end. No walk has an end by its type: a count of turns ends the loop without a proof of how many items are left.
fn items(rt: &HostRuntime, mut walk: Walk<'_, Joined<Numbers, Texts>>) -> anyhow::Result<()> {
    for _ in 0..100 {
        let next = walk.next();
        item(rt, next)?;
        if let Item::End = next {
            return Ok(());
        }
    }
    Ok(())
}

// The items of a frame, if it is accepted.
pub fn walked<'a>(
    rt: &HostRuntime,
    library: &'a Joined<Numbers, Texts>,
    dictionary: &'a [u8],
    frame: &'a [u8],
) -> anyhow::Result<()> {
    let Ok(accepted) = accept(dictionary, library, frame) else {
        return Ok(());
    };
    let Ok(walk) = accepted.walk(library) else {
        return Ok(());
    };
    items(rt, walk)
}

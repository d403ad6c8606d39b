// Runs the check on dictionaries that break one rule or another, and on those at the edge of a rule.
#![tactic(auto)]

mod draft;
mod kinds;
mod names;
mod order;
mod places;
mod report;
mod shapes;
mod sizes;
mod worked;

use std::fs;

// A dictionary in a file.
fn file(rt: &HostRuntime, name: &str) -> anyhow::Result<()> {
    let read = fs::read(rt, name)?;
    report::bytes(rt, name, read.as_slice())
}

// The three editions of the exchange's guide.
fn guides(rt: &HostRuntime) -> anyhow::Result<()> {
    file(rt, "guide.bin")?;
    file(rt, "guide-v5.bin")?;
    file(rt, "guide-v4.bin")
}

fn run(rt: &HostRuntime) -> anyhow::Result<()> {
    sizes::run(rt)?;
    shapes::run(rt)?;
    names::run(rt)?;
    kinds::run(rt)?;
    places::run(rt)?;
    order::run(rt)?;
    guides(rt)
}

fn main(rt: HostRuntime) -> anyhow::Result<()> {
    run(&rt)
}

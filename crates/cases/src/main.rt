// Runs examples through the type libraries and the cutter, and prints a line for each.
#![tactic(auto)]

mod answers;
mod ends;
mod examples;
mod known;
mod shown;
mod streams;

use base::BASE;

fn run(rt: &HostRuntime) -> anyhow::Result<()> {
    known::run(rt, &BASE)?;
    ends::run(rt, &BASE)?;
    examples::run(rt, &BASE)?;
    streams::run(rt)
}

fn main(rt: HostRuntime) -> anyhow::Result<()> {
    run(&rt)
}

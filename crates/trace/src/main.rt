// Runs a script of calls on both registers at once, and prints what each of them answers.
#![tactic(auto)]

mod answer;
mod chance;
mod command;
mod memory;
mod pair;
mod script;
mod written;

use script::Script;
use sheets::input::input;
use std::io::{BufWriter, Write};

fn run(rt: &HostRuntime) -> anyhow::Result<()> {
    let bytes = input(rt, "trace")?;
    let mut out = BufWriter::new(rt.alloc(), rt.stdout())?;
    Script::of(rt.alloc(), &bytes, &mut out).answer()?;
    out.flush()?;
    Ok(())
}

fn main(rt: HostRuntime) -> anyhow::Result<()> {
    run(&rt)
}

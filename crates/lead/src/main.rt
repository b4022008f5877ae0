// Reads a sheet of methods with their bobs and singles, and prints the lead of each form.
#![tactic(auto)]

mod command;
mod sheet;

use sheet::Sheet;
use sheets::input::input;
use std::io::{BufWriter, Write};

fn run(rt: &HostRuntime) -> anyhow::Result<()> {
    let bytes = input(rt, "lead")?;
    let mut out = BufWriter::new(rt.alloc(), rt.stdout())?;
    Sheet::new(rt.alloc(), &mut out).answer(&bytes)?;
    out.flush()?;
    Ok(())
}

fn main(rt: HostRuntime) -> anyhow::Result<()> {
    run(&rt)
}

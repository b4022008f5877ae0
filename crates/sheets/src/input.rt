// Where a program has its sheet from.
use anyhow::anyhow;
use std::io::Read;
use std::{env, fs};

// The whole sheet: the file that the one argument names, or standard input.
pub fn input(rt: &HostRuntime, program: &str) -> anyhow::Result<Vec<u8>> {
    let mut words = env::args(rt)?;
    let _ = words.next();
    let Some(path) = words.next() else {
        let mut bytes = Vec::new(rt.alloc());
        rt.stdin().read_to_end(&mut bytes)?;
        return Ok(bytes);
    };
    if words.next().is_some() {
        return Err(anyhow!("{program} takes one sheet at most"));
    }
    Ok(fs::read(rt, path.as_str())?)
}

//! What the words of a call ask for.
use crate::benchmark::{BENCHMARKS, Named};
use crate::putting::put;
use anyhow::{Result, bail};

fn found(word: &str) -> Option<Named> {
    BENCHMARKS.iter().copied().find(|named| named.name == word)
}

fn run_one(rt: &HostRuntime, name: &str, size: &str) -> Result<()> {
    let Some(named) = found(name) else {
        bail!("no benchmark of this name: {name}");
    };
    put(rt, named, size.parse::<u32>()?)
}

fn run_all(rt: &HostRuntime) -> Result<()> {
    for named in &BENCHMARKS {
        put(rt, *named, named.small)?;
    }
    Ok(())
}

/// Runs the benchmark that is named, at the size that stands behind its name; with no words each of them, at a small size.
pub fn run(rt: &HostRuntime, words: &[String]) -> Result<()> {
    match words {
        [] => run_all(rt),
        [name, size] => run_one(rt, name.as_str(), size.as_str()),
        _ => bail!("usage: benchmarks [NAME SIZE]"),
    }
}

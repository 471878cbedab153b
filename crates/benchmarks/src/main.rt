//! Counts of work on generated input, whose times are taken from outside.
#![tactic(auto)]

mod benchmark;
mod draft;
mod graphs;
mod lists;
mod putting;
mod queries;
mod shapes;
mod texts;
mod words;

use anyhow::Result;
use std::env;

fn main(rt: HostRuntime) -> Result<()> {
    let words: Vec<String> = env::args(&rt)?.skip(1).collect(rt.alloc())?;
    words::run(&rt, words.as_slice())
}

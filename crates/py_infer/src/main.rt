//! Infers the types of a Python module and writes them as a stub.
#![tactic(auto)]

mod answer;
mod fault_names;
mod judge;
mod line;
mod plain_type;
mod report;
pub mod run;
pub mod status;
#[cfg(test)]
mod tests;
mod types;
mod typing;
mod words;

use outside_io::{HostShelf, HostSink};
use std::process::ExitCode;
use std::{env, io};

/// The exit status where the words can't be had.
const NO_WORDS: u8 = 8;

fn words_of(rt: &HostRuntime) -> io::Result<Vec<String>> {
    let words = env::args(rt)?.skip(1).collect(rt.alloc())?;
    Ok(words)
}

fn main(rt: HostRuntime) -> ExitCode {
    let Ok(words) = words_of(&rt) else {
        return ExitCode::from(NO_WORDS);
    };
    let mut shelf = HostShelf::new(&rt);
    let mut out = HostSink::new(rt.stdout());
    let mut note = HostSink::new(rt.stderr());
    let status = run::run(
        rt.alloc(),
        words.as_slice(),
        &mut shelf,
        &mut out,
        &mut note,
    );
    ExitCode::from(status.code())
}

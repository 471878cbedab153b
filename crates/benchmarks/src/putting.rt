//! What is printed of each benchmark.
use crate::benchmark::{Benchmark, Named};
use crate::graphs::{edges, facts, line, tests};
use crate::lists::{Printed, print_all};
use crate::queries::{Query, Tally, Told};
use crate::shapes::{entries, interned, places};
use crate::texts::{Counts, Pattern, count_text};
use anyhow::{Result, ensure};

/// How many states a solver may meet that is asked at each point of a line.
const FEW: u32 = 100;

// What a graph has, if nothing of it was refused.
fn put_graph(rt: &HostRuntime, query: &Query) -> Result<()> {
    ensure!(query.draft.is_whole(), "a graph that is not whole");
    let (points, edges) = (query.draft.points(), query.draft.edges());
    let facts = query.draft.facts();
    println!(rt; "  {points} points, {edges} edges, {facts} facts")?;
    Ok(())
}

fn put_told(rt: &HostRuntime, query: &Query) -> Result<()> {
    put_graph(rt, query)?;
    let Told {
        set,
        unset,
        enough,
        few,
    } = query.told(rt.alloc())?;
    let states = query.states;
    println!(rt; "  set {set:?}, unset {unset:?}")?;
    println!(rt; "  {states} states: heavy {enough}, with one less {few}")?;
    Ok(())
}

fn put_tally(rt: &HostRuntime, query: &Query, budget: u32) -> Result<()> {
    put_graph(rt, query)?;
    let Tally { visible, heavy } = query.tally(rt.alloc(), budget)?;
    println!(rt; "  visible at {visible} points, heavy at {heavy}")?;
    Ok(())
}

fn put_printed(rt: &HostRuntime, lists: u32) -> Result<()> {
    let Printed { entries, bytes } = print_all(rt.alloc(), lists)?;
    println!(rt; "  {entries} entries, a type of {bytes} bytes")?;
    Ok(())
}

fn put_text(rt: &HostRuntime, pattern: Pattern, size: u32) -> Result<()> {
    let Counts {
        bytes,
        tokens,
        instructions,
    } = count_text(rt.alloc(), pattern, size)?;
    println!(rt; "  {bytes} bytes, {tokens} tokens, {instructions} instructions")?;
    Ok(())
}

fn put_shapes(rt: &HostRuntime, size: u32) -> Result<()> {
    let count = interned(rt.alloc(), size)?.len();
    println!(rt; "  {count} shapes")?;
    Ok(())
}

fn put_entries(rt: &HostRuntime, count: u64) -> Result<()> {
    println!(rt; "  {count} entries")?;
    Ok(())
}

/// Does a benchmark at a size, and prints its counts.
pub fn put(rt: &HostRuntime, named: Named, size: u32) -> Result<()> {
    let alloc = rt.alloc();
    let name = named.name;
    println!(rt; "{name} {size}")?;
    match named.benchmark {
        Benchmark::Line => put_told(rt, &line(alloc, size)?),
        Benchmark::Tests => put_told(rt, &tests(alloc, size)?),
        Benchmark::Edges => put_told(rt, &edges(alloc, size)?),
        Benchmark::Facts => put_told(rt, &facts(alloc, size)?),
        Benchmark::Everywhere => put_tally(rt, &line(alloc, size)?, size),
        Benchmark::Short => put_tally(rt, &line(alloc, size)?, FEW),
        Benchmark::Shapes => put_shapes(rt, size),
        Benchmark::Places => put_entries(rt, places(alloc, size)?.entry_count()),
        Benchmark::Entries => put_entries(rt, entries(alloc, size)?.entry_count()),
        Benchmark::Lists => put_printed(rt, size),
        Benchmark::Text(pattern) => put_text(rt, pattern, size),
    }
}

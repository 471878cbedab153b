//! A context that is finished.
ghost use Rattle.std.specs.Prelude.{◌≡◌, ◌+◌, ◌<◌, length, OnOk, OnErr};
ghost use Rattle.world_rules.specs.Sources.{Source};
ghost use Rattle.world_tables.specs.Tables.{items_of, AreTables, HasAll};
ghost use Rattle.world_tables.specs.Rows.{contexts_of, the_context, tables_of};
ghost use Rattle.context_code.specs.Sources.{IsSourceOf};
ghost use Rattle.context_graph.specs.Growth.{IsGrown, IsStep, IsPart, IsWithEdges};
ghost use Rattle.context_graph.specs.Places.{IsCodeOf};
ghost use Rattle.context_graph.specs.Worlds.{IsWorld};

use crate::edges::add_edges;
use crate::points::add_points;
use crate::reads::add_reads;
use context_code::code_at;
use place_ids::ContextId;
use program_tables::Program;
use stack_code::ValidCode;
use std::alloc::{AllocError, Global};
use world_tables::Tables;

/// Gives the next context its points, in the order of their places, its variables, and its edges in that order. A call after a refusal goes on with it.
pub fn finish_context(
    alloc: Global,
    tables: &mut Tables,
    program: &Program,
    context: ContextId,
) -> Result<(), AllocError>
    requires there { context < length tables.old.graph.flow.contexts }
    requires next { context ≡ tables.old.finished }
    ensures grown { IsGrown tables.old tables.new }
    ensures done { OnOk result (tables.new.finished ≡ tables.old.finished + 1) }
    ensures refused { OnErr result (tables.new.finished ≡ tables.old.finished) }
    ensures keeps { (s : Source) → IsSourceOf s program.now → AreTables s (tables_of tables.old) → AreTables s (tables_of tables.new) }
    ensures items { (s : Source) → IsSourceOf s program.now → AreTables s (tables_of tables.old) →
        IsWithEdges s (the_context (contexts_of tables.old) context) (items_of (tables_of tables.old)) (items_of (tables_of tables.new)) }
{
    add_all(alloc, tables, program, context)?;
    tables.finish_next();
    Ok(())
}

// Adds all that a context needs. One without code needs nothing.
fn add_all(
    alloc: Global,
    tables: &mut Tables,
    program: &Program,
    context: ContextId,
) -> Result<(), AllocError>
    requires there { context < length tables.old.graph.flow.contexts }
    requires next { context ≡ tables.old.finished }
    ensures step { IsStep tables.old tables.new }
    ensures keeps { (s : Source) → IsWorld s program.now tables.old → IsPart s context tables.old tables.new }
    ensures all { (s : Source) → IsWorld s program.now tables.old → OnOk result (HasAll s (tables_of tables.new) (the_context (contexts_of tables.old) context)) }
{
    match code_at(tables, program, context) {
        Some(code) => add_parts(alloc, tables, program, code, context),
        None => Ok(()),
    }
}

// Adds what a context needs that has this code. Where the code has more places than a `u32` counts, there are too many for points.
fn add_parts(
    alloc: Global,
    tables: &mut Tables,
    program: &Program,
    code: &ValidCode,
    context: ContextId,
) -> Result<(), AllocError>
    requires next { context ≡ tables.old.finished }
    requires code { IsCodeOf program.now tables.old context code.now }
    ensures step { IsStep tables.old tables.new }
    ensures keeps { (s : Source) → IsWorld s program.now tables.old → IsPart s context tables.old tables.new }
    ensures all { (s : Source) → IsWorld s program.now tables.old → OnOk result (HasAll s (tables_of tables.new) (the_context (contexts_of tables.old) context)) }
{
    if code.code().ops.len() > u32::MAX as usize {
        return Err(AllocError);
    }
    add_points(tables, program, code, context)?;
    add_reads(alloc, tables, program, code, context)?;
    add_edges(tables, code, context)
}

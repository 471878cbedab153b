//! What rules make of shapes that the graph has.
ghost use Rattle.std.specs.Prelude.{◌≡◌, ℕ, ◌<◌, length, IfOk};
ghost use Rattle.std.specs.List.{Contains};
ghost use Rattle.world_rules.specs.Rows.{row_of};
ghost use Rattle.world_rules.specs.Texts.{fault_text};
ghost use Rattle.world_tables.specs.Rows.{tables_of};
ghost use Rattle.world_queries.specs.Choices.{shapes_by};

use instruction_rows::{fault_text, row_of};
use place_ids::ShapeId;
use program_tables::Program;
use std::alloc::{AllocError, Global};
use world_rules::{Fault, FaultText, Transfer, TransferRow};
use world_tables::Tables;

/// What a rule makes of the shapes under these ids.
pub(crate) fn row_read(
    alloc: Global,
    tables: &Tables,
    transfer: Transfer,
    read: &[ShapeId],
) -> Result<TransferRow, AllocError>
    requires there { (id : ℕ) → Contains read.now id → id < length tables.now.graph.truths }
    ensures { IfOk result (λ row. row ≡ row_of transfer (shapes_by (tables_of tables.now) read.now)) }
{
    // How many shapes the graph has stands in what the tables say of themselves.
    let _graph = tables.graph();
    row_of(alloc, tables.shapes(), transfer, read)
}

/// A fault as a report tells it, for the shapes under these ids.
pub(crate) fn fault_read(
    alloc: Global,
    program: &Program,
    tables: &Tables,
    fault: Fault,
    read: &[ShapeId],
) -> Result<FaultText, AllocError>
    requires there { (id : ℕ) → Contains read.now id → id < length tables.now.graph.truths }
    ensures { IfOk result (λ told. told ≡ fault_text program.now.program fault (shapes_by (tables_of tables.now) read.now)) }
{
    let _graph = tables.graph();
    fault_text(alloc, program, tables.shapes(), fault, read)
}

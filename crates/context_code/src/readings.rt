//! What the instruction at a point reads.
ghost use Rattle.std.specs.Prelude.{◌≡◌, IfOk};
ghost use Rattle.world_tables.specs.Rows.{contexts_of};
ghost use Rattle.context_code.specs.Readings.{readings_of};

use crate::codes::{op_at, thread_of};
use instruction_rows::readings;
use program_tables::Program;
use sqlite_items::Items;
use std::alloc::{AllocError, Global};
use world_rules::SeatReading;
use world_tables::{PointSpot, Tables};

/// The readings of the instruction at a point. There are none where there is no instruction.
pub fn readings_at(
    alloc: Global,
    tables: &Tables,
    program: &Program,
    at: &PointSpot,
) -> Result<Items<SeatReading>, AllocError>
    ensures { IfOk result (λ answer. answer ≡ readings_of program.now (contexts_of tables.now) at.now) }
{
    match op_at(tables, program, at) {
        Some(op) => readings(alloc, program, thread_of(tables, at.context), at.depth, op),
        None => Ok(Items::new(alloc)),
    }
}

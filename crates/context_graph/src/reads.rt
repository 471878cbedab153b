//! The variables that instructions read.
ghost use Rattle.std.specs.Prelude.{◌≡◌, ◌<◌, ◌^◌, length, OnOk};
ghost use Rattle.world_rules.specs.Sources.{Source};
ghost use Rattle.world_tables.specs.declared.spot.PointSpot.{PointSpot as Spot};
ghost use Rattle.world_tables.specs.Tables.{AreTables};
ghost use Rattle.world_tables.specs.Rows.{tables_of};
ghost use Rattle.context_code.specs.Seats.{owned_spots};
ghost use Rattle.context_graph.specs.Growth.{IsStep, IsPart};
ghost use Rattle.context_graph.specs.Places.{IsCodeOf, IsPlaceOf, IsSpotAt, HasReads, HaveReads};
ghost use Rattle.context_graph.specs.Worlds.{IsWorld, AreUsed, AreKnown};

use crate::kept::kept;
use crate::spots::spot_at;
use crate::variables::add_variable;
use context_code::{owned_spot, readings_at};
use place_ids::ContextId;
use program_tables::Program;
use stack_code::ValidCode;
use std::alloc::{AllocError, Global};
use world_rules::OwnedSeat;
use world_tables::{PointSpot, Tables};

/// What the instructions of a context read are variables then.
pub(crate) fn add_reads(
    alloc: Global,
    tables: &mut Tables,
    program: &Program,
    code: &ValidCode,
    context: ContextId,
) -> Result<(), AllocError>
    requires code { IsCodeOf program.now tables.old context code.now }
    requires short { length code.now.ops < 2 ^ 32 }
    ensures step { IsStep tables.old tables.new }
    ensures keeps { (s : Source) → IsWorld s program.now tables.old → IsPart s context tables.old tables.new }
    ensures reads { OnOk result (HaveReads program.now tables.new code.now context (length code.now.ops)) }
{
    for place in 0..code.code().ops.len() {
        add_reads_at(alloc, tables, program, code, context, place as u32)?;
    }
    Ok(())
}

// What the instruction at a place reads are variables then.
fn add_reads_at(
    alloc: Global,
    tables: &mut Tables,
    program: &Program,
    code: &ValidCode,
    context: ContextId,
    place: u32,
) -> Result<(), AllocError>
    requires code { IsCodeOf program.now tables.old context code.now }
    ensures step { IsStep tables.old tables.new }
    ensures keeps { (s : Source) → IsWorld s program.now tables.old → IsPart s context tables.old tables.new }
    ensures reads { OnOk result ((spot : Spot) → IsSpotAt code.now context place spot → HasReads program.now tables.new spot) }
{
    match spot_at(code, context, place) {
        Some(at) => add_read(alloc, tables, program, &at),
        None => Ok(()),
    }
}

// What the instruction at a spot reads are variables then.
fn add_read(
    alloc: Global,
    tables: &mut Tables,
    program: &Program,
    at: &PointSpot,
) -> Result<(), AllocError>
    requires place { IsPlaceOf program.now tables.old at.now }
    ensures step { IsStep tables.old tables.new }
    ensures keeps { (s : Source) → IsWorld s program.now tables.old → IsPart s at.now.context tables.old tables.new }
    ensures reads { OnOk result (HasReads program.now tables.new at.now) }
{
    kept(tables);
    let readings = readings_at(alloc, tables, program, at)?;
    for reading in readings.as_slice() {
        add_seats(tables, at.context, reading.seats.as_slice())?;
    }
    Ok(())
}

// Seats that are read are variables then.
fn add_seats(tables: &mut Tables, context: ContextId, seats: &[OwnedSeat]) -> Result<(), AllocError>
    requires there { context < length tables.old.graph.flow.contexts }
    ensures step { IsStep tables.old tables.new }
    ensures keeps { (s : Source) → AreTables s (tables_of tables.old) → AreUsed s tables.old (owned_spots context seats.now) → IsPart s context tables.old tables.new }
    ensures known { OnOk result (AreKnown tables.new (owned_spots context seats.now)) }
{
    for seat in seats {
        let _var = add_variable(tables, &owned_spot(context, seat))?;
    }
    Ok(())
}

//! The points of a context.
ghost use Rattle.std.specs.Prelude.{◌≡◌, ℕ, ◌+◌, ◌<◌, ◌^◌, length, option_map, IfOk, OnOk};
ghost use Rattle.std.specs.List.{Contains};
ghost use Rattle.flow_graph.specs.Validity.{IsThere};
ghost use Rattle.world_rules.specs.Places.{written};
ghost use Rattle.world_rules.specs.Rules.{Stands};
ghost use Rattle.world_rules.specs.Sources.{Source};
ghost use Rattle.world_tables.specs.declared.spot.PointSpot.{PointSpot as Spot};
ghost use Rattle.world_tables.specs.Tables.{the_variable};
ghost use Rattle.world_tables.specs.Rows.{contexts_of, the_context, tables_of};
ghost use Rattle.context_graph.specs.Growth.{IsStep, IsPart};
ghost use Rattle.context_graph.specs.Places.{IsCodeOf, HavePoints};
ghost use Rattle.context_graph.specs.Worlds.{IsWorld};

use crate::first::first_place;
use crate::kept::kept;
use crate::roots::is_root;
use crate::spots::spot_at;
use crate::variables::add_variable;
use context_code::written;
use place_ids::{ContextId, VarId};
use program_tables::Program;
use stack_code::{Op, ValidCode};
use std::alloc::AllocError;
use world_tables::{PointSpot, Tables};

/// Adds the points of the next context, in the order of their places. Those that are there already stay, and it goes on behind them.
pub(crate) fn add_points(
    tables: &mut Tables,
    program: &Program,
    code: &ValidCode,
    context: ContextId,
) -> Result<(), AllocError>
    requires next { context ≡ tables.old.finished }
    requires code { IsCodeOf program.now tables.old context code.now }
    requires short { length code.now.ops < 2 ^ 32 }
    ensures step { IsStep tables.old tables.new }
    ensures keeps { (s : Source) → IsWorld s program.now tables.old → IsPart s context tables.old tables.new }
    ensures points { (s : Source) → IsWorld s program.now tables.old →
        OnOk result (HavePoints s (tables_of tables.new) (the_context (contexts_of tables.old) context) (length code.now.ops)) }
{
    let places = code.code().ops.len();
    for place in first_place(tables, context)..places {
        add_point_at(tables, program, code, context, place as u32)?;
    }
    Ok(())
}

// Adds the point at a place, if the place has a depth.
fn add_point_at(
    tables: &mut Tables,
    program: &Program,
    code: &ValidCode,
    context: ContextId,
    place: u32,
) -> Result<(), AllocError>
    requires next { context ≡ tables.old.finished }
    requires code { IsCodeOf program.now tables.old context code.now }
    requires order { (other : Spot) → Contains tables.old.points other → other.context ≡ context → other.place < place }
    ensures step { IsStep tables.old tables.new }
    ensures order { (other : Spot) → Contains tables.new.points other → other.context ≡ context → other.place < place + 1 }
    ensures keeps { (s : Source) → IsWorld s program.now tables.old → HavePoints s (tables_of tables.old) (the_context (contexts_of tables.old) context) place →
        IsPart s context tables.old tables.new }
    ensures points { (s : Source) → IsWorld s program.now tables.old → HavePoints s (tables_of tables.old) (the_context (contexts_of tables.old) context) place →
        OnOk result (HavePoints s (tables_of tables.new) (the_context (contexts_of tables.old) context) (place + 1)) }
{
    match spot_at(code, context, place) {
        Some(at) => match code.code().ops.get(place as usize) {
            Some(op) => add_point(tables, program, &at, op),
            None => Ok(()),
        },
        None => Ok(()),
    }
}

// Adds the point of an instruction.
fn add_point(
    tables: &mut Tables,
    program: &Program,
    at: &PointSpot,
    op: &Op,
) -> Result<(), AllocError>
    requires next { at.now.context ≡ tables.old.finished }
    requires there { at.now.context < length tables.old.graph.flow.contexts }
    requires order { (other : Spot) → Contains tables.old.points other → other.context ≡ at.now.context → other.place < at.now.place }
    ensures step { IsStep tables.old tables.new }
    ensures order { (other : Spot) → Contains tables.new.points other → other.context ≡ at.now.context → other.place < at.now.place + 1 }
    ensures there { OnOk result (Contains tables.new.points at.now) }
    ensures keeps { (s : Source) → IsWorld s program.now tables.old → Stands s (the_context (contexts_of tables.old) at.now.context) at.now.place at.now.depth op.now →
        HavePoints s (tables_of tables.old) (the_context (contexts_of tables.old) at.now.context) at.now.place →
        IsPart s at.now.context tables.old tables.new }
{
    let target = add_target(tables, program, at, op)?;
    kept(tables);
    let root = is_root(tables, program, at);
    match tables.add_point(at, target, root) {
        Ok(_) => Ok(()),
        Err(_) => Err(AllocError),
    }
}

// The variable that an instruction writes, which is known then.
fn add_target(
    tables: &mut Tables,
    program: &Program,
    at: &PointSpot,
    op: &Op,
) -> Result<Option<VarId>, AllocError>
    requires there { at.now.context < length tables.old.graph.flow.contexts }
    ensures step { IsStep tables.old tables.new }
    ensures points { tables.new.points ≡ tables.old.points }
    ensures target { IfOk result (λ target. option_map (the_variable (tables_of tables.new)) target ≡
        written program.now.program (the_context (contexts_of tables.old) at.now.context) at.now.depth op.now) }
    ensures within { IfOk result (λ target. IsThere target tables.new.graph.flow.vars) }
    ensures keeps { (s : Source) → IsWorld s program.now tables.old → Stands s (the_context (contexts_of tables.old) at.now.context) at.now.place at.now.depth op.now →
        IsPart s at.now.context tables.old tables.new }
{
    match written(tables, program, at, op) {
        Some(spot) => {
            let var = add_variable(tables, &spot)?;
            Ok(Some(var))
        }
        None => Ok(None),
    }
}

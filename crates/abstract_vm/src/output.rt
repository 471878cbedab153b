//! The variables that the output asks for at a point.
ghost use Rattle.std.specs.Prelude.{◌≡◌, ◌↔◌, ◌++◌, ℕ, None, Some, slice_get, IfOk, OnOk};
ghost use Rattle.std.specs.List.{Contains};
ghost use Rattle.world_rules.specs.Places.{main, op_at};
ghost use Rattle.world_rules.specs.Sources.{Source};
ghost use Rattle.world_tables.specs.Tables.{AreTables};
ghost use Rattle.world_tables.specs.Rows.{contexts_of, tables_of, the_context};
ghost use Rattle.abstract_vm.specs.Asking.{context_at, IsAsked, IsOutputNumber, IsGlobalNumber, global_number};

use crate::judging::Judging;
use context_code::{fun_of, op_at, top_spot};
use place_ids::{ContextId, Id, PointId, VarId};
use sqlite_items::Items;
use stack_code::Op;
use std::alloc::{AllocError, Global};
use world_tables::{PointSpot, Tables, VariableSpot};

/// The globals at the module's end, and at a return what is returned.
pub(crate) fn output_vars(judging: &Judging, spot: &PointSpot) -> Result<Items<VarId>, AllocError>
    ensures { (s : Source) (budget : ℕ) → IsAsked s judging.now budget spot.now → IfOk result (λ vars. (var : ℕ) → Contains vars var ↔ IsOutputNumber judging.now spot.now var) }
{
    match op_at(judging.tables, judging.program, spot) {
        Some(op) => op_vars(judging, spot, op),
        None => Ok(Items::new(judging.alloc)),
    }
}

fn op_vars(judging: &Judging, spot: &PointSpot, op: &Op) -> Result<Items<VarId>, AllocError>
    ensures { (s : Source) (budget : ℕ) → IsAsked s judging.now budget spot.now → op_at judging.now.program.now.program (context_at judging.now spot.now) spot.now.place ≡ Some op.now →
        IfOk result (λ vars. (var : ℕ) → Contains vars var ↔ IsOutputNumber judging.now spot.now var) }
{
    // That the contexts of spots are there stands in what the tables say of themselves.
    let _graph = judging.tables.graph();
    match op {
        Op::End => end_vars(judging, spot.context),
        Op::Return => one_var(judging.alloc, judging.tables, &top_spot(spot)),
        _ => Ok(Items::new(judging.alloc)),
    }
}

// The globals, where the context is the module's.
fn end_vars(judging: &Judging, context: ContextId) -> Result<Items<VarId>, AllocError>
    ensures { IfOk result (λ vars. (var : ℕ) → Contains vars var ↔
        ((the_context (contexts_of judging.now.tables.now) context ≡ main) × IsGlobalNumber judging.now.tables.now.variables var)) }
{
    match fun_of(judging.tables, context) {
        Some(_) => Ok(Items::new(judging.alloc)),
        None => globals(judging.alloc, judging.tables),
    }
}

// The variable at a spot, if there is one.
fn one_var(alloc: Global, tables: &Tables, spot: &VariableSpot) -> Result<Items<VarId>, AllocError>
    ensures { (s : Source) → AreTables s (tables_of tables.now) → IfOk result (λ vars. (var : ℕ) → Contains vars var ↔ (slice_get tables.now.variables var ≡ Some spot.now)) }
{
    match tables.variable_at(spot) {
        Some(var) => Items::from_slice(alloc, &[var]),
        None => Ok(Items::new(alloc)),
    }
}

// The variables that are globals.
fn globals(alloc: Global, tables: &Tables) -> Result<Items<VarId>, AllocError>
    ensures { IfOk result (λ vars. (var : ℕ) → Contains vars var ↔ IsGlobalNumber tables.now.variables var) }
{
    // That there are fewer variables than a `u32` counts stands in what the flow says of itself.
    let _target = tables.graph().flow().target(PointId::new(0));
    let mut found = Items::new(alloc);
    for number in 0..u32::MAX {
        let var = VarId::new(number);
        match tables.variable_spot(var) {
            Some(spot) => push_global(&mut found, var, &spot)?,
            None => return Ok(found),
        }
    }
    Ok(found)
}

// Adds a variable, where its spot is a global's.
fn push_global(found: &mut Items<VarId>, var: VarId, spot: &VariableSpot) -> Result<(), AllocError>
    ensures { OnOk result (found.new ≡ found.old ++ global_number var spot.now) }
{
    match spot {
        VariableSpot::Global(_) => found.push(var),
        VariableSpot::Local(..) | VariableSpot::Slot(..) => Ok(()),
    }
}

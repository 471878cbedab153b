//! The variable that an instruction writes.
ghost use Rattle.std.specs.Prelude.{◌≡◌, ℕ, ◌<◌, List, option_map, length, IfSome};
ghost use Rattle.std.specs.Option.{option_and_then};
ghost use Rattle.tree_code.specs.Programs.{Program as ProgramTables};
ghost use Rattle.world_rules.specs.Places.{Context, written, pushed, returned};
ghost use Rattle.world_tables.specs.Rows.{contexts_of, the_context, variable_of, IsSpotThere};
ghost use Rattle.context_code.specs.Calls.{pushed_at};

use crate::codes::{op_at, row_of};
use place_ids::ContextId;
use program_tables::Program;
use stack_code::Op;
use world_tables::{PointSpot, Tables, VariableSpot};

/// The variable that an instruction writes, if it writes one.
pub fn written(tables: &Tables, program: &Program, at: &PointSpot, op: &Op) -> Option<VariableSpot>
    ensures stands { option_map (variable_of (contexts_of tables.now)) result ≡ written program.now.program (the_context (contexts_of tables.now) at.now.context) at.now.depth op.now }
    ensures there { at.now.context < length tables.now.graph.flow.contexts → IfSome result (λ spot. IsSpotThere spot (length tables.now.graph.flow.contexts)) }
{
    match op {
        Op::Param(local) | Op::StoreLocal(local) | Op::ForgetLocal(local) => {
            Some(VariableSpot::Local(at.context, *local))
        }
        Op::StoreName(name) | Op::ForgetName(name) => Some(VariableSpot::Global(*name)),
        Op::Return => returned(tables, program, at.context),
        _ => pushed(at, op),
    }
}

// The slot that an instruction pushes, if it pushes one.
fn pushed(at: &PointSpot, op: &Op) -> Option<VariableSpot>
    ensures stands { (contexts : List Context) → option_map (variable_of contexts) result ≡ pushed (the_context contexts at.now.context) at.now.depth op.now }
    ensures there { (count : ℕ) → at.now.context < count → IfSome result (λ spot. IsSpotThere spot count) }
{
    let effect = op.effect();
    if effect.pushes != 1 {
        return None;
    }
    let left = (at.depth as usize).saturating_sub(effect.takes);
    Some(VariableSpot::Slot(at.context, left as u32))
}

// The slot that the instruction at a spot pushes.
fn pushed_at(tables: &Tables, program: &Program, at: &PointSpot) -> Option<VariableSpot>
    ensures stands { option_map (variable_of (contexts_of tables.now)) result ≡ pushed_at program.now.program (contexts_of tables.now) at.now }
    ensures there { (count : ℕ) → at.now.context < count → IfSome result (λ spot. IsSpotThere spot count) }
{
    match op_at(tables, program, at) {
        Some(op) => pushed(at, op),
        None => None,
    }
}

// The point at which a context is called.
fn call_of(tables: &Tables, context: ContextId) -> Option<PointSpot>
    ensures stands { (program : ProgramTables) → returned program (the_context (contexts_of tables.now) context) ≡ option_and_then (pushed_at program (contexts_of tables.now)) result }
    ensures there { context < length tables.now.graph.flow.contexts → IfSome result (λ spot. spot.context < length tables.now.graph.flow.contexts) }
{
    match row_of(tables, context) {
        Some(row) => match row.call {
            Some(call) => tables.point_spot(call),
            None => None,
        },
        None => None,
    }
}

// What a context that is called gives its value to: the slot of the call in the calling context.
fn returned(tables: &Tables, program: &Program, context: ContextId) -> Option<VariableSpot>
    ensures stands { option_map (variable_of (contexts_of tables.now)) result ≡ returned program.now.program (the_context (contexts_of tables.now) context) }
    ensures there { context < length tables.now.graph.flow.contexts → IfSome result (λ spot. IsSpotThere spot (length tables.now.graph.flow.contexts)) }
{
    match call_of(tables, context) {
        Some(at) => pushed_at(tables, program, &at),
        None => None,
    }
}

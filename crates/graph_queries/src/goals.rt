//! Choices as maps.
ghost use Rattle.std.specs.Prelude.{◌≡◌, ◌∷◌, [], ◌++◌, IfOk, IfSome, OnOk};
ghost use Rattle.graph_walks.specs.Worlds.{AllGiven};
ghost use Rattle.typegraph.specs.Graphs.{GraphTables};
ghost use Rattle.typegraph.specs.Maps.{look, IsJoined, IsRising};
ghost use Rattle.goal_solver.specs.Graphs.{world_of};
ghost use Rattle.graph_queries.specs.Choices.{AreGiven, bindings};

use place_ids::{ShapeId, VarId};
use sqlite_items::Items;
use std::alloc::{AllocError, Global};
use typegraph::{Binding, GoalMap};

/// The map that gives each variable its shape. There is none exactly where one of them would get two.
pub fn goals_of(
    alloc: Global,
    vars: &[VarId],
    shapes: &[ShapeId],
) -> Result<Option<GoalMap>, AllocError>
    ensures joined { IfOk result (λ answer. IsJoined [] (bindings vars.now shapes.now) answer) }
    ensures rising { IfOk result (λ answer. IfSome answer IsRising) }
    ensures given { (graph : GraphTables) → AreGiven graph vars.now shapes.now → IfOk result (λ answer. IfSome answer (λ goals. AllGiven (world_of graph) (look goals))) }
{
    let pairs = bindings_of(alloc, vars, shapes)?;
    GoalMap::from_bindings(alloc, pairs.as_slice())
}

fn bindings_of(
    alloc: Global,
    vars: &[VarId],
    shapes: &[ShapeId],
) -> Result<Items<Binding>, AllocError>
    ensures { IfOk result (λ pairs. pairs ≡ bindings vars.now shapes.now) }
{
    let mut pairs = Items::new(alloc);
    for (place, var) in vars.iter().enumerate() {
        match shapes.get(place) {
            Some(shape) => pairs.push(binding(*var, *shape))?,
            None => return Ok(pairs),
        }
    }
    Ok(pairs)
}

fn binding(var: VarId, shape: ShapeId) -> Binding
    ensures { result ≡ record { var = var; shape = shape } }
{
    Binding { var, shape }
}

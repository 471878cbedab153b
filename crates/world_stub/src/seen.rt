//! The shapes that a global is seen to have where the module ends.
ghost use Rattle.std.specs.Prelude.{◌≡◌, ◌↔◌, ◌<◌, ◌≤◌, ℕ, Some, true, length, slice_get, IsTrue, IfOk, OnOk};
ghost use Rattle.std.specs.FinSet as finite;
ghost use Rattle.std.specs.List.{Contains};
ghost use Rattle.graph_walks.specs.Worlds.{AllGiven};
ghost use Rattle.graph_walks.specs.Backs.{Seen};
ghost use Rattle.typegraph.specs.Graphs.{IsGiven};
ghost use Rattle.typegraph.specs.Maps.{look};
ghost use Rattle.typegraph.specs.Validity.{IsValid};
ghost use Rattle.goal_solver.specs.Graphs as numbers;
ghost use Rattle.world_tables.specs.declared.spot.VariableSpot.TheVariants.{Global};
ghost use Rattle.world_tables.specs.Tables.{HaveOneNumber};
ghost use Rattle.world_stub.specs.Ends.{goal_of, HasShape, IsSeenAt, IsSeenAtOne};
ghost use Rattle.world_stub.specs.Solved.{OnlySolved};

use abstract_vm::World;
use flow_graph::Steps;
use goal_solver::Answer;
use place_ids::{ContextId, Id, NameId, PointId, ShapeId, VarId};
use shape_sets::ShapeSet;
use sqlite_items::Items;
use std::alloc::{AllocError, Global};
use std::sync::ledger::Ledger;
use typegraph::{Binding, GoalMap, Graph};
use world_rules::Seat;

/// The shapes that a global is seen to have at one of the points.
pub(crate) fn seen_shapes<L: Ledger>(
    alloc: Global,
    world: &mut World,
    ends: &[PointId],
    name: NameId,
    steps: &mut Steps<L>,
) -> Result<ShapeSet, AllocError>
    ensures seen { IfOk result (λ set. HaveOneNumber world.old.rows.variables → (shape : ℕ) → finite.contains set.members shape ≡ true ↔ HasShape world.old ends.now name shape) }
    ensures same { OnlySolved world.old world.new }
{
    // That each shape of the graph is kept stands in what the world says of itself.
    let _graph = world.graph();
    let mut seen = ShapeSet::new(alloc, world.shapes().len())?;
    match world.var(ContextId::new(0), Seat::Global(name)) {
        Some(var) => {
            add_seen(alloc, world, ends, var, &mut seen, steps)?;
            Ok(seen)
        }
        None => Ok(seen),
    }
}

// Adds the shapes that a variable is seen to have at one of the points.
fn add_seen<L: Ledger>(
    alloc: Global,
    world: &mut World,
    ends: &[PointId],
    var: VarId,
    seen: &mut ShapeSet,
    steps: &mut Steps<L>,
) -> Result<(), AllocError>
    requires wide { length world.old.rows.graph.truths ≤ seen.old.width }
    requires empty { seen.old.members ≡ finite.empty }
    ensures seen { OnOk result ((shape : ℕ) → finite.contains seen.new.members shape ≡ true ↔ IsSeenAt world.old.rows.graph world.old.solver.budget ends.now var shape) }
    ensures same { OnlySolved world.old world.new }
{
    valid(world.graph());
    let given = Items::from_slice(alloc, world.graph().shapes_of(var))?;
    for shape in given.as_slice() {
        if is_seen_at(alloc, world, ends, var, *shape, steps)? {
            seen.insert(*shape);
        }
    }
    Ok(())
}

// Whether the variable is seen to have the shape at one of the points.
fn is_seen_at<L: Ledger>(
    alloc: Global,
    world: &mut World,
    ends: &[PointId],
    var: VarId,
    shape: ShapeId,
    steps: &mut Steps<L>,
) -> Result<bool, AllocError>
    requires { IsGiven world.old.rows.graph var shape }
    ensures seen { IfOk result (λ seen. IsTrue seen ↔ IsSeenAtOne world.old.rows.graph world.old.solver.budget ends.now (look (goal_of var shape))) }
    ensures same { OnlySolved world.old world.new }
{
    match GoalMap::from_bindings(alloc, &[Binding { var, shape }])? {
        Some(goals) => is_seen_at_one(world, ends, &goals, steps),
        None => Ok(false),
    }
}

fn is_seen_at_one<L: Ledger>(
    world: &mut World,
    ends: &[PointId],
    goals: &GoalMap,
    steps: &mut Steps<L>,
) -> Result<bool, AllocError>
    requires { AllGiven (numbers.world_of world.old.rows.graph) (look goals.now) }
    ensures seen { IfOk result (λ seen. IsTrue seen ↔ IsSeenAtOne world.old.rows.graph world.old.solver.budget ends.now (look goals.now)) }
    ensures same { OnlySolved world.old world.new }
{
    for end in ends {
        if is_seen(world, *end, goals, steps)? {
            return Ok(true);
        }
    }
    Ok(false)
}

// A query that is given up counts as seen.
fn is_seen<L: Ledger>(
    world: &mut World,
    point: PointId,
    goals: &GoalMap,
    steps: &mut Steps<L>,
) -> Result<bool, AllocError>
    requires { AllGiven (numbers.world_of world.old.rows.graph) (look goals.now) }
    ensures seen { IfOk result (λ seen. IsTrue seen ↔ Seen (numbers.world_of world.old.rows.graph) point (look goals.now) world.old.solver.budget) }
    ensures same { OnlySolved world.old world.new }
{
    match world.ask(point, goals, steps)? {
        Answer::Yes | Answer::Spent => Ok(true),
        Answer::No => Ok(false),
    }
}

// What a graph says of itself.
fn valid(graph: &Graph)
    ensures { IsValid graph.now }
{
    let _target = graph.flow().target(PointId::new(0));
}

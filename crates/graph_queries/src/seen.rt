//! Whether what is wanted at a point is seen there.
ghost use Rattle.std.specs.Prelude.{◌≡◌, ◌↔◌, ◌+◌, ◌≤◌, Bool, ℕ, IsTrue, IfOk, OnErr};
ghost use Rattle.graph_walks.specs.Worlds.{Memory, AllGiven};
ghost use Rattle.graph_walks.specs.Backs.{Seen};
ghost use Rattle.typegraph.specs.Maps.{look};
ghost use Rattle.goal_solver.specs.Graphs.{world_of};
ghost use Rattle.goal_solver.specs.Memos.{Remembers, IsSound};

use flow_graph::Steps;
use goal_solver::{Answer, Solver};
use place_ids::PointId;
use std::alloc::AllocError;
use std::sync::ledger::Ledger;
use typegraph::{GoalMap, Graph};

/// Whether goals that facts give are seen at a point. A query that is given up counts as seen.
pub fn is_seen<L: Ledger>(
    graph: &Graph,
    solver: &mut Solver,
    point: PointId,
    goals: &GoalMap,
    steps: &mut Steps<L>,
) -> Result<bool, AllocError>
    requires sound { IsSound solver.old graph.now }
    requires given { AllGiven (world_of graph.now) (look goals.now) }
    ensures seen { IfOk result (λ seen. IsTrue seen ↔ Seen (world_of graph.now) point (look goals.now) solver.old.budget) }
    ensures cost { steps.new ≤ steps.old + solver.old.budget }
    ensures sound { IsSound solver.new graph.now }
    ensures kept { (at : ℕ) (wanted : Memory ℕ ℕ) (yes : Bool) → Remembers solver.old at wanted yes → Remembers solver.new at wanted yes }
    ensures budget { solver.new.budget ≡ solver.old.budget }
    ensures refused { OnErr result (solver.new ≡ solver.old) }
{
    match solver.ask(graph, point, goals, steps)? {
        Answer::Yes | Answer::Spent => Ok(true),
        Answer::No => Ok(false),
    }
}

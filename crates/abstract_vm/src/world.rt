//! The world of a program.
ghost use Rattle.std.specs.Prelude.{◌≡◌, ◌↔◌, Bool, ℕ, ◌+◌, ◌-◌, ◌^◌, ◌<◌, ◌≤◌, None, Some, Ok, List, take, length, slice_get, IsTrue, IfSome, IfOk, OnErr};
ghost use Rattle.std.specs.List.{Contains};
ghost use Rattle.graph_walks.specs.Worlds.{Memory};
ghost use Rattle.graph_walks.specs.Walks.{Visible};
ghost use Rattle.graph_walks.specs.Backs.{Heavy};
ghost use Rattle.typegraph.specs.Maps.{look};
ghost use Rattle.goal_solver.specs.Graphs as numbers;
ghost use Rattle.goal_solver.specs.Memos.{Remembers};
ghost use Rattle.world_tables.specs.Rows.{IsKept};
ghost use Rattle.abstract_vm.specs.Worlds.{items_in};
ghost use Rattle.abstract_vm.specs.Spots.{IsSpotOf, seat_spot};

use crate::Spot;
use abstract_shapes::{Joined, Shapes};
use flow_graph::Steps;
use goal_solver::{Answer, Solver};
use place_ids::{ContextId, PointId, VarId};
use std::alloc::{AllocError, Global};
use std::marker::Model;
use std::sync::ledger::Ledger;
use typegraph::{GoalMap, Graph};
use world_rules::Seat;
use world_tables::{Tables, VariableSpot};

/// What a program's values may be, as far as it is known, and what was answered of it. What is remembered of answers is right for the world as it stands.
#[derive(Debug, Drop)]
pub struct World {
    pub(crate) alloc: Global,
    pub(crate) tables: Tables,
    pub(crate) solver: Solver,
    pub(crate) library: bool,
}

impl Model for World {
    ghost use Rattle.std.specs.Coded.{codes};
    ghost use Rattle.abstract_shapes.specs.contracts.shape.Shape as shape_row;
    ghost use Rattle.goal_solver.specs.Memos.{IsSound};
    ghost use Rattle.abstract_vm.specs.Worlds.{WorldState, AreEntriesThere};

    ghost Value = { WorldState };

    ghost coded = { Prim.hlevel (codes, shape_row.the_row.coded) };

    ghost view = { λ w. record { rows = w.tables; solver = w.solver; library = w.library } };

    ghost invariant = { λ w. IsSound w.solver w.tables.graph × AreEntriesThere w.tables };
}

impl World {
    /// Whether some walk to the point ends with a memory that holds the goals.
    pub fn ask<L: Ledger>(
        &mut self,
        point: PointId,
        goals: &GoalMap,
        steps: &mut Steps<L>,
    ) -> Result<Answer, AllocError>
        ensures no { IfOk result (λ answer. answer ≡ Answer.No ↔
            ((Visible (numbers.world_of self.old.rows.graph) point (look goals.now) → ⊥) × (Heavy (numbers.world_of self.old.rows.graph) point (look goals.now) self.old.solver.budget → ⊥))) }
        ensures yes { result ≡ Ok Answer.Yes → Visible (numbers.world_of self.old.rows.graph) point (look goals.now) }
        ensures spent { result ≡ Ok Answer.Spent → Heavy (numbers.world_of self.old.rows.graph) point (look goals.now) self.old.solver.budget }
        ensures cost { steps.new ≤ steps.old + self.old.solver.budget }
        ensures kept { (at : ℕ) (wanted : Memory ℕ ℕ) (yes : Bool) → Remembers self.old.solver at wanted yes → Remembers self.new.solver at wanted yes }
        ensures same { self.new ≡ record self.old { solver = self.new.solver } }
        ensures budget { self.new.solver.budget ≡ self.old.solver.budget }
        ensures refused { OnErr result (self.new ≡ self.old) }
    {
        self.solver.ask(self.tables.graph(), point, goals, steps)
    }

    /// Whether more states than the budget are reached from the query, itself counted.
    pub fn heavy<L: Ledger>(
        &mut self,
        point: PointId,
        goals: &GoalMap,
        steps: &mut Steps<L>,
    ) -> Result<bool, AllocError>
        ensures exact { IfOk result (λ heavy. IsTrue heavy ↔ Heavy (numbers.world_of self.old.rows.graph) point (look goals.now) self.old.solver.budget) }
        ensures cost { steps.new ≤ steps.old + self.old.solver.budget }
        ensures kept { (at : ℕ) (wanted : Memory ℕ ℕ) (yes : Bool) → Remembers self.old.solver at wanted yes → Remembers self.new.solver at wanted yes }
        ensures same { self.new ≡ record self.old { solver = self.new.solver } }
        ensures budget { self.new.solver.budget ≡ self.old.solver.budget }
        ensures refused { OnErr result (self.new ≡ self.old) }
    {
        self.solver.heavy(self.tables.graph(), point, goals, steps)
    }

    pub fn graph(&self) -> &Graph
        ensures graph { result.now ≡ self.now.rows.graph }
        ensures kept { IsKept self.now.rows }
    {
        self.tables.graph()
    }

    /// The shapes. The first ones are those that the graph has.
    pub fn shapes(&self) -> &Shapes
        ensures { take (length self.now.rows.graph.truths) result.now ≡ self.now.rows.shapes }
    {
        self.tables.shapes()
    }

    pub fn joined(&self) -> &Joined
        ensures { result.now ≡ self.now.rows.joined }
    {
        self.tables.joined()
    }

    pub fn point_count(&self) -> u32
        ensures { result ≡ length self.now.rows.points }
    {
        self.tables.point_count()
    }

    /// How many items there are, or 2^32 - 1 where there are more.
    pub fn item_count(&self) -> u32
        ensures few { length (items_in self.now) < 2 ^ 32 → result ≡ length (items_in self.now) }
        ensures many { 2 ^ 32 ≤ length (items_in self.now) → result ≡ 2 ^ 32 - 1 }
    {
        self.tables.item_count()
    }

    /// Whether every function is entered from outside.
    pub fn library(&self) -> bool
        ensures { result ≡ self.now.library }
    {
        self.library
    }

    /// Where a point stands, if there is one.
    pub fn spot(&self, point: PointId) -> Option<Spot>
        ensures found { IfSome result (IsSpotOf self.now.rows point) }
        ensures none { result ≡ None → slice_get self.now.rows.points point ≡ None }
    {
        // That the context is there stands in what the tables say of themselves.
        let flow = self.tables.graph().flow();
        let at = self.tables.point_spot(point)?;
        let row = flow.context(at.context)?;
        Some(Spot {
            context: at.context,
            fun: row.fun,
            place: at.place,
        })
    }

    /// The variable that a seat of a context is, if there is one.
    pub fn var(&self, context: ContextId, seat: Seat) -> Option<VarId>
        ensures found { IfSome result (λ id. slice_get self.now.rows.variables id ≡ Some (seat_spot context seat)) }
        ensures none { result ≡ None → Contains self.now.rows.variables (seat_spot context seat) → ⊥ }
    {
        self.tables.variable_at(&seat_spot(context, seat))
    }
}

// The variable that a seat of a context is.
fn seat_spot(context: ContextId, seat: Seat) -> VariableSpot
    ensures { result ≡ seat_spot context seat }
{
    match seat {
        Seat::Local(local) => VariableSpot::Local(context, local),
        Seat::Slot(slot) => VariableSpot::Slot(context, slot),
        Seat::Global(name) => VariableSpot::Global(name),
    }
}

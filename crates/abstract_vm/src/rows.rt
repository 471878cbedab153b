//! What rows of rules add to a world.
ghost use Rattle.std.specs.Prelude.{◌≡◌, ◌⊎◌, ℕ, ◌<◌, length, slice_get, IsSome};
ghost use Rattle.std.specs.List.{All};
ghost use Rattle.flow_graph.specs.Flows.{target_of};
ghost use Rattle.typegraph.specs.Validity.{IsBindingThere};
ghost use Rattle.world_rules.specs.Places.{Point};
ghost use Rattle.abstract_vm.specs.Worlds.{point_in};
ghost use Rattle.abstract_vm.specs.Steps.{IsStep, IsOneOf, IsFiring, IsFiringUnder, MayResult, MayEnter, IsGivenFact, IsGivenEntry};

use crate::World;
use place_ids::{PointId, ShapeId};
use std::alloc::AllocError;
use typegraph::GoalMap;
use world_rules::{TableEntry, TransferRow, Yield};

impl World {
    /// Adds what a row gives the target of a point and the joined tables, for shapes that are read under goals, and answers whether something is new.
    pub(crate) fn add_row(
        &mut self,
        point: PointId,
        choice: &[ShapeId],
        goals: &GoalMap,
        row: &TransferRow,
    ) -> Result<bool, AllocError>
        requires point { IsSome (target_of (slice_get self.old.rows.graph.flow.points point)) }
        requires choice { All (λ id. id < length self.old.rows.graph.truths) choice.now }
        requires goals { All (IsBindingThere self.old.rows.graph.flow.vars (length self.old.rows.graph.truths)) goals.now }
        ensures { IsStep (λ s. IsFiringUnder s self.old (point_in self.old point) choice.now goals.now row.now) (point_in self.old point)
            (λ s i. IsOneOf (IsGivenFact s self.old point choice.now goals.now) row.now.results i ⊎ IsOneOf (IsGivenEntry s self.old choice.now) row.now.entries i) result self.old self.new }
    {
        let results = self.add_results(point, choice, goals, row)?;
        let entries = self.enter_row(choice, row)?;
        Ok(results | entries)
    }

    // The shapes that a row gives the target.
    fn add_results(
        &mut self,
        point: PointId,
        choice: &[ShapeId],
        goals: &GoalMap,
        row: &TransferRow,
    ) -> Result<bool, AllocError>
        requires point { IsSome (target_of (slice_get self.old.rows.graph.flow.points point)) }
        requires choice { All (λ id. id < length self.old.rows.graph.truths) choice.now }
        requires goals { All (IsBindingThere self.old.rows.graph.flow.vars (length self.old.rows.graph.truths)) goals.now }
        ensures { IsStep (λ s. IsFiringUnder s self.old (point_in self.old point) choice.now goals.now row.now) (point_in self.old point)
            (λ s. IsOneOf (IsGivenFact s self.old point choice.now goals.now) row.now.results) result self.old self.new }
    {
        let mut grown = false;
        for result in row.results.as_slice() {
            let more = self.add_result(point, choice, goals, *result)?;
            grown |= more;
        }
        Ok(grown)
    }

    fn add_result(
        &mut self,
        point: PointId,
        choice: &[ShapeId],
        goals: &GoalMap,
        given: Yield,
    ) -> Result<bool, AllocError>
        requires point { IsSome (target_of (slice_get self.old.rows.graph.flow.points point)) }
        requires choice { All (λ id. id < length self.old.rows.graph.truths) choice.now }
        requires goals { All (IsBindingThere self.old.rows.graph.flow.vars (length self.old.rows.graph.truths)) goals.now }
        ensures { IsStep (λ s. MayResult s self.old (point_in self.old point) choice.now goals.now given) (point_in self.old point)
            (λ s. IsGivenFact s self.old point choice.now goals.now given) result self.old self.new }
    {
        let shapes = self.given(choice, given)?;
        self.add_facts(point, shapes.as_slice(), goals)
    }

    // The shapes that a row puts into joined tables.
    fn enter_row(&mut self, choice: &[ShapeId], row: &TransferRow) -> Result<bool, AllocError>
        requires { All (λ id. id < length self.old.rows.graph.truths) choice.now }
        ensures { (p : Point) → IsStep (λ s. IsFiring s self.old p choice.now row.now) p (λ s. IsOneOf (IsGivenEntry s self.old choice.now) row.now.entries) result self.old self.new }
    {
        let mut grown = false;
        for entry in row.entries.as_slice() {
            let more = self.enter(choice, entry)?;
            grown |= more;
        }
        Ok(grown)
    }

    fn enter(&mut self, choice: &[ShapeId], entry: &TableEntry) -> Result<bool, AllocError>
        requires { All (λ id. id < length self.old.rows.graph.truths) choice.now }
        ensures { (p : Point) → IsStep (λ s. MayEnter s self.old p choice.now entry.now) p (λ s. IsGivenEntry s self.old choice.now entry.now) result self.old self.new }
    {
        let shapes = self.given(choice, entry.given)?;
        self.add_entries(&entry.place, shapes.as_slice())
    }
}

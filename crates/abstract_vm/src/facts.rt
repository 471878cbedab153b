//! Facts that are added to a world.
ghost use Rattle.std.specs.Prelude.{◌≡◌, ℕ, ◌<◌, length, slice_get, IsSome};
ghost use Rattle.std.specs.List.{All, Contains};
ghost use Rattle.flow_graph.specs.Flows.{target_of};
ghost use Rattle.typegraph.specs.Validity.{IsBindingThere};
ghost use Rattle.world_rules.specs.Rules.{GivesAt};
ghost use Rattle.abstract_vm.specs.Worlds.{items_in, point_in};
ghost use Rattle.abstract_vm.specs.Steps.{fact_in, IsStep, IsOneOf};

use crate::World;
use goal_solver::laws::{additions_grow, sound_after_growth};
use place_ids::{PointId, ShapeId};
use std::alloc::AllocError;
use typegraph::GoalMap;

impl World {
    // Adds the fact that a point gives its target the shape where the goals hold, and answers whether it is new.
    fn add_fact(
        &mut self,
        point: PointId,
        shape: ShapeId,
        goals: &GoalMap,
    ) -> Result<bool, AllocError>
        requires point { IsSome (target_of (slice_get self.old.rows.graph.flow.points point)) }
        requires shape { shape < length self.old.rows.graph.truths }
        requires goals { All (IsBindingThere self.old.rows.graph.flow.vars (length self.old.rows.graph.truths)) goals.now }
        ensures { IsStep (λ s. GivesAt s (items_in self.old) (point_in self.old point) (fact_in self.old point shape goals.now)) (point_in self.old point)
            (λ s i. i ≡ fact_in self.old point shape goals.now) result self.old self.new }
    {
        match self.tables.add_fact(point, shape, goals.items()) {
            Ok(true) => {
                additions_grow();
                sound_after_growth();
                self.solver.grown();
                Ok(true)
            }
            Ok(false) => Ok(false),
            Err(_) => Err(AllocError),
        }
    }

    /// Adds a fact for each of the shapes, and answers whether one is new.
    pub(crate) fn add_facts(
        &mut self,
        point: PointId,
        shapes: &[ShapeId],
        goals: &GoalMap,
    ) -> Result<bool, AllocError>
        requires point { IsSome (target_of (slice_get self.old.rows.graph.flow.points point)) }
        requires shapes { All (λ id. id < length self.old.rows.graph.truths) shapes.now }
        requires goals { All (IsBindingThere self.old.rows.graph.flow.vars (length self.old.rows.graph.truths)) goals.now }
        ensures { IsStep (λ s. (id : ℕ) → Contains shapes.now id → GivesAt s (items_in self.old) (point_in self.old point) (fact_in self.old point id goals.now)) (point_in self.old point)
            (λ s. IsOneOf (λ id i. i ≡ fact_in self.old point id goals.now) shapes.now) result self.old self.new }
    {
        let mut grown = false;
        for shape in shapes {
            let more = self.add_fact(point, *shape, goals)?;
            grown |= more;
        }
        Ok(grown)
    }
}

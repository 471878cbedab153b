//! The rules of one point, fired.
ghost use Rattle.std.specs.Prelude.{◌≡◌, ◌↔◌, ℕ, ◌<◌, length, slice_get, IsTrue, IsSome, IfOk, OnOk, IsErrOf};
ghost use Rattle.std.specs.List.{All, Contains};
ghost use Rattle.graph_walks.specs.Worlds.{AllGiven};
ghost use Rattle.flow_graph.specs.Flows.{target_of};
ghost use Rattle.typegraph.specs.Maps.{look};
ghost use Rattle.typegraph.specs.Validity.{IsBindingThere};
ghost use Rattle.goal_solver.specs.Graphs as numbers;
ghost use Rattle.graph_queries.specs.Choices.{AreGiven};
ghost use Rattle.type_terms.specs.StubSets.{given};
ghost use Rattle.world_rules.specs.Items.{Item};
ghost use Rattle.world_rules.specs.Rules.{GivesAt};
ghost use Rattle.world_rules.specs.declared.transfer.SeatReading.{SeatReading as Reading};
ghost use Rattle.abstract_vm.specs.Worlds.{items_in, point_in, source, most_items, IsWorldOf};
ghost use Rattle.abstract_vm.specs.Firing.{HasNewItem, IsFired};
ghost use Rattle.abstract_vm.specs.Steps.{GivesBy, GivesFor, IsStep, IsOneOf, shapes_in};
ghost use Rattle.abstract_vm.specs.Readings.{IsReadAt, IsReadingOf, IsQueryOf, IsSeenQuery, IsSourceIn};

use crate::read::row_read;
use crate::{VmFault, World};
use context_code::{readings_at, vars_of};
use flow_graph::Steps;
use graph_queries::{choices, goals_of, is_seen};
use place_ids::{PointId, ShapeId, VarId};
use program_tables::Program;
use sqlite_items::Items;
use std::alloc::AllocError;
use std::sync::ledger::Ledger;
use type_terms::StubSet;
use typegraph::GoalMap;
use world_rules::SeatReading;
use world_tables::PointSpot;

/// How many items a world may have.
pub(crate) const MOST_ITEMS: u32 = 400_000;

impl World {
    /// Adds each item that the rules of one point give, and answers whether the world grew.
    pub fn fire<L: Ledger>(
        &mut self,
        program: &Program,
        stubs: &StubSet,
        depth: u32,
        point: PointId,
        steps: &mut Steps<L>,
    ) -> Result<bool, VmFault>
        requires point { point < length self.old.rows.points }
        requires world { IsWorldOf (source program.now (given stubs.now) depth self.old) self.old }
        ensures fired { IsFired (source program.now (given stubs.now) depth self.old) (point_in self.old point) self.old self.new }
        ensures complete { OnOk result ((i : Item) → GivesAt (source program.now (given stubs.now) depth self.old) (items_in self.old) (point_in self.old point) i → Contains (items_in self.new) i) }
        ensures grown { IfOk result (λ grown. IsTrue grown ↔ HasNewItem self.old self.new) }
        ensures full { IsErrOf result VmFault.Full ↔ (most_items < length (items_in self.new)) }
    {
        let fired = self.fire_point(program, point, steps);
        if self.tables.item_count() > MOST_ITEMS {
            return Err(VmFault::Full);
        }
        match fired {
            Ok(grown) => Ok(grown),
            Err(_) => Err(VmFault::Memory),
        }
    }

    // An instruction that writes nothing has no rule that gives something.
    fn fire_point<L: Ledger>(
        &mut self,
        program: &Program,
        point: PointId,
        steps: &mut Steps<L>,
    ) -> Result<bool, AllocError>
        requires { point < length self.old.rows.points }
        ensures { IsStep (λ s. IsSourceIn s program.now self.old) (point_in self.old point) (λ s. GivesAt s (items_in self.old) (point_in self.old point)) result self.old self.new }
    {
        let Some(at) = self.tables.point_spot(point) else {
            return Ok(false);
        };
        if self.tables.graph().flow().target(point).is_none() {
            return Ok(false);
        }
        let readings = readings_at(self.alloc, &self.tables, program, &at)?;
        self.fire_readings(point, &at, readings.as_slice(), steps)
    }

    fn fire_readings<L: Ledger>(
        &mut self,
        point: PointId,
        at: &PointSpot,
        readings: &[SeatReading],
        steps: &mut Steps<L>,
    ) -> Result<bool, AllocError>
        requires { IsSome (target_of (slice_get self.old.rows.graph.flow.points point)) }
        ensures { IsStep (λ s. (r : Reading) → Contains readings.now r → IsReadAt s self.old point at.now r) (point_in self.old point)
            (λ s. IsOneOf (λ r. GivesBy s (items_in self.old) r (point_in self.old point)) readings.now) result self.old self.new }
    {
        let mut grown = false;
        for reading in readings {
            let more = self.fire_reading(point, at, reading, steps)?;
            grown |= more;
        }
        Ok(grown)
    }

    fn fire_reading<L: Ledger>(
        &mut self,
        point: PointId,
        at: &PointSpot,
        reading: &SeatReading,
        steps: &mut Steps<L>,
    ) -> Result<bool, AllocError>
        requires { IsSome (target_of (slice_get self.old.rows.graph.flow.points point)) }
        ensures { IsStep (λ s. IsReadAt s self.old point at.now reading.now) (point_in self.old point) (λ s. GivesBy s (items_in self.old) reading.now (point_in self.old point)) result self.old self.new }
    {
        // That each variable's context is there stands in what the tables say of themselves.
        let _graph = self.tables.graph();
        match vars_of(
            self.alloc,
            &self.tables,
            at.context,
            reading.seats.as_slice(),
        )? {
            Some(vars) => self.fire_choices(point, reading, vars.as_slice(), steps),
            None => Ok(false),
        }
    }

    // Each choice of shapes for the seats of one reading.
    fn fire_choices<L: Ledger>(
        &mut self,
        point: PointId,
        reading: &SeatReading,
        vars: &[VarId],
        steps: &mut Steps<L>,
    ) -> Result<bool, AllocError>
        requires { IsSome (target_of (slice_get self.old.rows.graph.flow.points point)) }
        ensures { IsStep (λ s. IsReadingOf s self.old point reading.now vars.now) (point_in self.old point) (λ s. GivesBy s (items_in self.old) reading.now (point_in self.old point)) result self.old self.new }
    {
        let chosen = choices(self.alloc, self.tables.graph(), vars)?;
        self.fire_each(point, reading, vars, chosen.as_slice(), steps)
    }

    fn fire_each<L: Ledger>(
        &mut self,
        point: PointId,
        reading: &SeatReading,
        vars: &[VarId],
        chosen: &[Items<ShapeId>],
        steps: &mut Steps<L>,
    ) -> Result<bool, AllocError>
        requires point { IsSome (target_of (slice_get self.old.rows.graph.flow.points point)) }
        requires given { All (AreGiven self.old.rows.graph vars.now) chosen.now }
        ensures { IsStep (λ s. IsReadingOf s self.old point reading.now vars.now) (point_in self.old point)
            (λ s. IsOneOf (λ choice. GivesFor s (items_in self.old) reading.now (shapes_in self.old choice) (point_in self.old point)) chosen.now) result self.old self.new }
    {
        let mut grown = false;
        for choice in chosen {
            let more = self.fire_choice(point, reading, vars, choice.as_slice(), steps)?;
            grown |= more;
        }
        Ok(grown)
    }

    // One choice of shapes, where the variables can have them together.
    fn fire_choice<L: Ledger>(
        &mut self,
        point: PointId,
        reading: &SeatReading,
        vars: &[VarId],
        choice: &[ShapeId],
        steps: &mut Steps<L>,
    ) -> Result<bool, AllocError>
        requires point { IsSome (target_of (slice_get self.old.rows.graph.flow.points point)) }
        requires given { AreGiven self.old.rows.graph vars.now choice.now }
        ensures { IsStep (λ s. IsReadingOf s self.old point reading.now vars.now) (point_in self.old point)
            (λ s. GivesFor s (items_in self.old) reading.now (shapes_in self.old choice.now) (point_in self.old point)) result self.old self.new }
    {
        // That what facts give has numbers stands in what a graph says of itself.
        let _target = self.tables.graph().flow().target(point);
        match goals_of(self.alloc, vars, choice)? {
            Some(goals) => self.fire_goals(point, reading, choice, &goals, steps),
            None => Ok(false),
        }
    }

    // One choice of shapes under its goals, where these are seen.
    fn fire_goals<L: Ledger>(
        &mut self,
        point: PointId,
        reading: &SeatReading,
        choice: &[ShapeId],
        goals: &GoalMap,
        steps: &mut Steps<L>,
    ) -> Result<bool, AllocError>
        requires point { IsSome (target_of (slice_get self.old.rows.graph.flow.points point)) }
        requires choice { All (λ id. id < length self.old.rows.graph.truths) choice.now }
        requires goals { All (IsBindingThere self.old.rows.graph.flow.vars (length self.old.rows.graph.truths)) goals.now }
        requires given { AllGiven (numbers.world_of self.old.rows.graph) (look goals.now) }
        ensures { IsStep (λ s. IsQueryOf s self.old point reading.now choice.now goals.now) (point_in self.old point)
            (λ s. GivesFor s (items_in self.old) reading.now (shapes_in self.old choice.now) (point_in self.old point)) result self.old self.new }
    {
        if is_seen(self.tables.graph(), &mut self.solver, point, goals, steps)? {
            self.fire_seen(point, reading, choice, goals)
        } else {
            Ok(false)
        }
    }

    fn fire_seen(
        &mut self,
        point: PointId,
        reading: &SeatReading,
        choice: &[ShapeId],
        goals: &GoalMap,
    ) -> Result<bool, AllocError>
        requires point { IsSome (target_of (slice_get self.old.rows.graph.flow.points point)) }
        requires choice { All (λ id. id < length self.old.rows.graph.truths) choice.now }
        requires goals { All (IsBindingThere self.old.rows.graph.flow.vars (length self.old.rows.graph.truths)) goals.now }
        ensures { IsStep (λ s. IsSeenQuery s self.old point reading.now choice.now goals.now) (point_in self.old point)
            (λ s. GivesFor s (items_in self.old) reading.now (shapes_in self.old choice.now) (point_in self.old point)) result self.old self.new }
    {
        let row = row_read(self.alloc, &self.tables, reading.transfer, choice)?;
        self.add_row(point, choice, goals, &row)
    }
}

//! What is told of one point.
ghost use Rattle.std.specs.Prelude.{◌≡◌, Bool, ℕ, ◌<◌, length, slice_get, IfOk, OnOk};
ghost use Rattle.std.specs.List.{Contains};
ghost use Rattle.graph_walks.specs.Worlds.{Memory};
ghost use Rattle.goal_solver.specs.Answers.{IsKept};
ghost use Rattle.goal_solver.specs.Memos.{IsSound, Remembers};
ghost use Rattle.type_terms.specs.StubSets.{given};
ghost use Rattle.world_rules.specs.Sources.{Source};
ghost use Rattle.world_tables.specs.Tables.{items_of, the_point};
ghost use Rattle.world_tables.specs.Rows.{contexts_of, tables_of};
ghost use Rattle.context_code.specs.Readings.{readings_of};
ghost use Rattle.abstract_vm.specs.Worlds.{items_in, point_in, source, IsWorldOf};
ghost use Rattle.abstract_vm.specs.Verdicts.{IsJudged};
ghost use Rattle.abstract_vm.specs.Marks.{SaysToo};
ghost use Rattle.abstract_vm.specs.Asking.{IsAsked, IsAskedOf, ReadingTells, RulesTell, OutputTells, PointTells};

use crate::judging::Judging;
use crate::output::output_vars;
use crate::tell::{judge_choices, weigh_vars};
use crate::{Verdict, World};
use context_code::laws::spots_are_variables;
use context_code::{readings_at, vars_of};
use flow_graph::Steps;
use goal_solver::Solver;
use place_ids::PointId;
use program_tables::Program;
use sqlite_items::Items;
use std::alloc::{AllocError, Global};
use std::sync::ledger::Ledger;
use type_terms::StubSet;
use world_queries::laws::{output_queries, readings_fire_by_numbers, variables_have_numbers};
use world_rules::SeatReading;
use world_tables::PointSpot;

impl World {
    /// What is found at a point, whether it marks its line as unchecked, and whether one of its queries is heavy. Nothing of the world changes but what is remembered.
    pub fn judge<L: Ledger>(
        &mut self,
        alloc: Global,
        program: &Program,
        stubs: &StubSet,
        depth: u32,
        point: PointId,
        steps: &mut Steps<L>,
    ) -> Result<Verdict, AllocError>
        requires point { point < length self.old.rows.points }
        requires world { IsWorldOf (source program.now (given stubs.now) depth self.old) self.old }
        ensures judged { IfOk result (λ v. IsJudged (source program.now (given stubs.now) depth self.old) (items_in self.old) (point_in self.old point) v) }
        ensures same { self.new ≡ record self.old { solver = self.new.solver } }
        ensures budget { self.new.solver.budget ≡ self.old.solver.budget }
        ensures kept { (at : ℕ) (wanted : Memory ℕ ℕ) (yes : Bool) → Remembers self.old.solver at wanted yes → Remembers self.new.solver at wanted yes }
    {
        let judging = Judging {
            alloc,
            program,
            tables: &self.tables,
            point,
        };
        judged(&judging, &mut self.solver, steps)
    }
}

fn judged<L: Ledger>(
    judging: &Judging,
    solver: &mut Solver,
    steps: &mut Steps<L>,
) -> Result<Verdict, AllocError>
    requires sound { IsSound solver.old judging.now.tables.now.graph }
    ensures judged { (s : Source) → IsAskedOf s judging.now solver.old.budget → judging.now.point < length judging.now.tables.now.points →
        IfOk result (IsJudged s (items_of (tables_of judging.now.tables.now)) (the_point (tables_of judging.now.tables.now) judging.now.point)) }
    ensures kept { IsKept judging.now.tables.now.graph solver.old solver.new }
{
    output_queries();
    let mut verdict = Verdict {
        faults: Items::new(judging.alloc),
        unchecked: false,
        heavy: false,
    };
    match judging.tables.point_spot(judging.point) {
        Some(spot) => {
            judge_spot(judging, solver, &spot, &mut verdict, steps)?;
            Ok(verdict)
        }
        None => Ok(verdict),
    }
}

fn judge_spot<L: Ledger>(
    judging: &Judging,
    solver: &mut Solver,
    spot: &PointSpot,
    verdict: &mut Verdict,
    steps: &mut Steps<L>,
) -> Result<(), AllocError>
    requires sound { IsSound solver.old judging.now.tables.now.graph }
    ensures told { (s : Source) → IsAsked s judging.now solver.old.budget spot.now → OnOk result (SaysToo (PointTells s judging.now spot.now) verdict.old verdict.new) }
    ensures kept { IsKept judging.now.tables.now.graph solver.old solver.new }
{
    judge_rules(judging, solver, spot, verdict, steps)?;
    judge_output(judging, solver, spot, verdict, steps)
}

fn judge_rules<L: Ledger>(
    judging: &Judging,
    solver: &mut Solver,
    spot: &PointSpot,
    verdict: &mut Verdict,
    steps: &mut Steps<L>,
) -> Result<(), AllocError>
    requires sound { IsSound solver.old judging.now.tables.now.graph }
    ensures told { (s : Source) → IsAsked s judging.now solver.old.budget spot.now → OnOk result (SaysToo (RulesTell s judging.now spot.now) verdict.old verdict.new) }
    ensures kept { IsKept judging.now.tables.now.graph solver.old solver.new }
{
    let readings = readings_at(judging.alloc, judging.tables, judging.program, spot)?;
    for reading in readings.as_slice() {
        judge_reading(judging, solver, spot, reading, verdict, steps)?;
    }
    Ok(())
}

fn judge_reading<L: Ledger>(
    judging: &Judging,
    solver: &mut Solver,
    spot: &PointSpot,
    reading: &SeatReading,
    verdict: &mut Verdict,
    steps: &mut Steps<L>,
) -> Result<(), AllocError>
    requires sound { IsSound solver.old judging.now.tables.now.graph }
    requires reading { Contains (readings_of judging.now.program.now (contexts_of judging.now.tables.now) spot.now) reading.now }
    ensures told { (s : Source) → IsAsked s judging.now solver.old.budget spot.now → OnOk result (SaysToo (ReadingTells s judging.now spot.now reading.now) verdict.old verdict.new) }
    ensures kept { IsKept judging.now.tables.now.graph solver.old solver.new }
{
    // That the context is there stands in what the tables say of themselves.
    let _graph = judging.tables.graph();
    spots_are_variables();
    variables_have_numbers();
    readings_fire_by_numbers();
    match vars_of(
        judging.alloc,
        judging.tables,
        spot.context,
        reading.seats.as_slice(),
    )? {
        Some(vars) => {
            judge_choices(
                judging,
                solver,
                &reading.transfer,
                vars.as_slice(),
                verdict,
                steps,
            )
        }
        None => Ok(()),
    }
}

// The queries of the output: what names have at the module's end, and what is returned.
fn judge_output<L: Ledger>(
    judging: &Judging,
    solver: &mut Solver,
    spot: &PointSpot,
    verdict: &mut Verdict,
    steps: &mut Steps<L>,
) -> Result<(), AllocError>
    requires sound { IsSound solver.old judging.now.tables.now.graph }
    ensures told { (s : Source) → IsAsked s judging.now solver.old.budget spot.now → OnOk result (SaysToo (OutputTells s judging.now spot.now) verdict.old verdict.new) }
    ensures kept { IsKept judging.now.tables.now.graph solver.old solver.new }
{
    let vars = output_vars(judging, spot)?;
    weigh_vars(judging, solver, vars.as_slice(), verdict, steps)
}

//! What choices of shapes for variables tell of a point.
ghost use Rattle.std.specs.Prelude.{◌≡◌, ◌||◌, ℕ, ◌<◌, ◌∷◌, [], length, OnOk};
ghost use Rattle.std.specs.List.{Contains};
ghost use Rattle.graph_walks.specs.Worlds.{AllGiven};
ghost use Rattle.typegraph.specs.Graphs.{IsGiven};
ghost use Rattle.typegraph.specs.Maps.{look};
ghost use Rattle.goal_solver.specs.Answers.{IsKept};
ghost use Rattle.goal_solver.specs.Graphs.{world_of};
ghost use Rattle.goal_solver.specs.Memos.{IsSound};
ghost use Rattle.graph_queries.specs.Choices.{AreGiven};
ghost use Rattle.world_rules.specs.declared.row.TransferRow.{TransferRow};
ghost use Rattle.world_tables.specs.Rows.{tables_of};
ghost use Rattle.world_queries.specs.Choices.{shapes_by};
ghost use Rattle.abstract_vm.specs.Marks.{SaysToo, AnyTells};
ghost use Rattle.abstract_vm.specs.Telling.{asked, FaultTells, RowTells, SeenTells, Weighs, GoalsTell, IdsTell, ChoicesTell, ShapeWeighs, VarWeighs};

use crate::Verdict;
use crate::judging::Judging;
use crate::read::{fault_read, row_read};
use flow_graph::Steps;
use goal_solver::Solver;
use graph_queries::{choices, goals_of, is_seen};
use place_ids::{ShapeId, VarId};
use std::alloc::AllocError;
use std::sync::ledger::Ledger;
use typegraph::{GoalMap, Graph};
use world_rules::{Fault, Transfer, TransferRow};

// ---- rows

// What a row tells of the shapes that are read.
fn judge_row(
    judging: &Judging,
    row: &TransferRow,
    read: &[ShapeId],
    verdict: &mut Verdict,
) -> Result<(), AllocError>
    requires there { (id : ℕ) → Contains read.now id → id < length judging.now.tables.now.graph.truths }
    ensures { OnOk result (SaysToo (RowTells judging.now.program.now.program row.now (shapes_by (tables_of judging.now.tables.now) read.now)) verdict.old verdict.new) }
{
    mark(row, verdict);
    match row.fault {
        Some(fault) => tell_fault(judging, fault, read, verdict),
        None => Ok(()),
    }
}

// Marks that an operand isn't followed, where the row says so.
fn mark(row: &TransferRow, verdict: &mut Verdict)
    ensures { verdict.new ≡ record verdict.old { unchecked = verdict.old.unchecked || row.now.unchecked } }
{
    verdict.unchecked |= row.unchecked;
}

fn tell_fault(
    judging: &Judging,
    fault: Fault,
    read: &[ShapeId],
    verdict: &mut Verdict,
) -> Result<(), AllocError>
    requires there { (id : ℕ) → Contains read.now id → id < length judging.now.tables.now.graph.truths }
    ensures { (row : TransferRow) → row.fault ≡ Some fault →
        OnOk result (SaysToo (FaultTells judging.now.program.now.program row (shapes_by (tables_of judging.now.tables.now) read.now)) verdict.old verdict.new) }
{
    let told = fault_read(judging.alloc, judging.program, judging.tables, fault, read)?;
    verdict.faults.push(told)
}

// ---- goals

// What the row tells, where the shapes are seen.
fn judge_seen<L: Ledger>(
    judging: &Judging,
    solver: &mut Solver,
    transfer: Transfer,
    choice: &[ShapeId],
    goals: &GoalMap,
    verdict: &mut Verdict,
    steps: &mut Steps<L>,
) -> Result<(), AllocError>
    requires sound { IsSound solver.old judging.now.tables.now.graph }
    requires given { AllGiven (world_of judging.now.tables.now.graph) (look goals.now) }
    requires there { (id : ℕ) → Contains choice.now id → id < length judging.now.tables.now.graph.truths }
    ensures told { OnOk result (SaysToo (SeenTells (asked judging.now solver.old.budget) transfer choice.now (look goals.now)) verdict.old verdict.new) }
    ensures kept { IsKept judging.now.tables.now.graph solver.old solver.new }
{
    let graph = judging.tables.graph();
    let seen = is_seen(graph, solver, judging.point, goals, steps)?;
    if !seen {
        return Ok(());
    }
    let row = row_read(judging.alloc, judging.tables, transfer, choice)?;
    judge_row(judging, &row, choice, verdict)
}

// Marks that a query is heavy. Once one is, no other is asked.
fn weigh<L: Ledger>(
    judging: &Judging,
    solver: &mut Solver,
    goals: &GoalMap,
    verdict: &mut Verdict,
    steps: &mut Steps<L>,
) -> Result<(), AllocError>
    requires sound { IsSound solver.old judging.now.tables.now.graph }
    ensures told { OnOk result (SaysToo (Weighs (asked judging.now solver.old.budget) (look goals.now)) verdict.old verdict.new) }
    ensures kept { IsKept judging.now.tables.now.graph solver.old solver.new }
{
    if verdict.heavy {
        return Ok(());
    }
    verdict.heavy = solver.heavy(judging.tables.graph(), judging.point, goals, steps)?;
    Ok(())
}

fn judge_goals<L: Ledger>(
    judging: &Judging,
    solver: &mut Solver,
    transfer: Transfer,
    choice: &[ShapeId],
    goals: &GoalMap,
    verdict: &mut Verdict,
    steps: &mut Steps<L>,
) -> Result<(), AllocError>
    requires sound { IsSound solver.old judging.now.tables.now.graph }
    requires given { AllGiven (world_of judging.now.tables.now.graph) (look goals.now) }
    requires there { (id : ℕ) → Contains choice.now id → id < length judging.now.tables.now.graph.truths }
    ensures told { OnOk result (SaysToo (GoalsTell (asked judging.now solver.old.budget) transfer choice.now (look goals.now)) verdict.old verdict.new) }
    ensures kept { IsKept judging.now.tables.now.graph solver.old solver.new }
{
    judge_seen(judging, solver, transfer, choice, goals, verdict, steps)?;
    weigh(judging, solver, goals, verdict, steps)
}

// ---- choices

fn judge_choice<L: Ledger>(
    judging: &Judging,
    solver: &mut Solver,
    transfer: Transfer,
    vars: &[VarId],
    choice: &[ShapeId],
    verdict: &mut Verdict,
    steps: &mut Steps<L>,
) -> Result<(), AllocError>
    requires sound { IsSound solver.old judging.now.tables.now.graph }
    requires given { AreGiven judging.now.tables.now.graph vars.now choice.now }
    ensures told { OnOk result (SaysToo (IdsTell (asked judging.now solver.old.budget) transfer vars.now choice.now) verdict.old verdict.new) }
    ensures kept { IsKept judging.now.tables.now.graph solver.old solver.new }
{
    // That the shapes are there stands in what the graph says of itself.
    let _flow = judging.tables.graph().flow();
    match goals_of(judging.alloc, vars, choice)? {
        Some(goals) => judge_goals(judging, solver, transfer, choice, &goals, verdict, steps),
        None => Ok(()),
    }
}

/// What the choices of shapes for variables tell.
pub(crate) fn judge_choices<L: Ledger>(
    judging: &Judging,
    solver: &mut Solver,
    transfer: &Transfer,
    vars: &[VarId],
    verdict: &mut Verdict,
    steps: &mut Steps<L>,
) -> Result<(), AllocError>
    requires sound { IsSound solver.old judging.now.tables.now.graph }
    ensures told { OnOk result (SaysToo (ChoicesTell (asked judging.now solver.old.budget) transfer.now vars.now) verdict.old verdict.new) }
    ensures kept { IsKept judging.now.tables.now.graph solver.old solver.new }
{
    let chosen = choices(judging.alloc, judging.tables.graph(), vars)?;
    for choice in chosen.as_slice() {
        judge_choice(
            judging,
            solver,
            *transfer,
            vars,
            choice.as_slice(),
            verdict,
            steps,
        )?;
    }
    Ok(())
}

// ---- single variables

fn weigh_shape<L: Ledger>(
    judging: &Judging,
    solver: &mut Solver,
    var: VarId,
    shape: ShapeId,
    verdict: &mut Verdict,
    steps: &mut Steps<L>,
) -> Result<(), AllocError>
    requires sound { IsSound solver.old judging.now.tables.now.graph }
    ensures told { OnOk result (SaysToo (ShapeWeighs (asked judging.now solver.old.budget) var shape) verdict.old verdict.new) }
    ensures kept { IsKept judging.now.tables.now.graph solver.old solver.new }
{
    match goals_of(judging.alloc, &[var], &[shape])? {
        Some(goals) => weigh(judging, solver, &goals, verdict, steps),
        None => Ok(()),
    }
}

// Each shape of a variable is a query.
fn weigh_var<L: Ledger>(
    judging: &Judging,
    solver: &mut Solver,
    var: VarId,
    verdict: &mut Verdict,
    steps: &mut Steps<L>,
) -> Result<(), AllocError>
    requires sound { IsSound solver.old judging.now.tables.now.graph }
    ensures told { OnOk result (SaysToo (VarWeighs (asked judging.now solver.old.budget) var) verdict.old verdict.new) }
    ensures kept { IsKept judging.now.tables.now.graph solver.old solver.new }
{
    for shape in judging.tables.graph().shapes_of(var) {
        weigh_shape(judging, solver, var, *shape, verdict, steps)?;
    }
    Ok(())
}

/// What the shapes of some variables tell, each a query by itself.
pub(crate) fn weigh_vars<L: Ledger>(
    judging: &Judging,
    solver: &mut Solver,
    vars: &[VarId],
    verdict: &mut Verdict,
    steps: &mut Steps<L>,
) -> Result<(), AllocError>
    requires sound { IsSound solver.old judging.now.tables.now.graph }
    ensures told { OnOk result (SaysToo (AnyTells (VarWeighs (asked judging.now solver.old.budget)) vars.now) verdict.old verdict.new) }
    ensures kept { IsKept judging.now.tables.now.graph solver.old solver.new }
{
    for var in vars {
        weigh_var(judging, solver, *var, verdict, steps)?;
    }
    Ok(())
}

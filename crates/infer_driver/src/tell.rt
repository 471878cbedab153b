//! What is told of all points of a world: findings, and the lines that they mark.
ghost use Rattle.std.specs.Prelude.{◌≡◌, ◌↔◌, ◌⊎◌, ℕ, Some, length, IsTrue, IfOk, OnOk};
ghost use Rattle.std.specs.List.{Contains};
ghost use Rattle.type_terms.specs.StubSets.{given};
ghost use Rattle.world_rules.specs.declared.finding.Finding.{Finding as FindingRow};
ghost use Rattle.abstract_vm.specs.Worlds.{source, IsWorldOf};
ghost use Rattle.world_stub.specs.Solved.{OnlySolved};
ghost use Rattle.infer_driver.specs.Told.{AreTold, IsToldOf, fault_in};

use crate::lines::line_at;
use abstract_vm::{Verdict, World};
use flow_graph::Steps;
use place_ids::{Id, LineNo, PointId};
use program_tables::Program;
use sqlite_items::Items;
use std::alloc::{AllocError, Global};
use std::sync::ledger::Ledger;
use type_terms::StubSet;
use world_rules::{FaultText, Finding};

/// Findings, unchecked lines and lines with a heavy query, in no order, and each as often as it is told.
#[derive(Debug, Drop)]
pub(crate) struct Told {
    pub(crate) findings: Vec<Finding>,
    pub(crate) unchecked: Vec<LineNo>,
    pub(crate) heavy: Vec<LineNo>,
}

/// Judges each point.
pub(crate) fn tell<L: Ledger>(
    alloc: Global,
    program: &Program,
    stubs: &StubSet,
    depth: u32,
    world: &mut World,
    steps: &mut Steps<L>,
) -> Result<Told, AllocError>
    requires { IsWorldOf (source program.now (given stubs.now) depth world.old) world.old }
    ensures told { IfOk result (λ told. AreTold (source program.now (given stubs.now) depth world.old) world.old (length world.old.rows.points) told) }
    ensures same { OnlySolved world.old world.new }
{
    let mut told = Told {
        findings: Vec::new(alloc),
        unchecked: Vec::new(alloc),
        heavy: Vec::new(alloc),
    };
    for number in 0..world.point_count() {
        let point = PointId::new(number);
        let line = line_at(program, world, point);
        let verdict = world.judge(alloc, program, stubs, depth, point, steps)?;
        add_verdict(&mut told, line, verdict)?;
    }
    Ok(told)
}

// Adds what is told of one point.
fn add_verdict(told: &mut Told, line: Option<LineNo>, verdict: Verdict) -> Result<(), AllocError>
    ensures { OnOk result (IsToldOf line verdict told.old told.new) }
{
    match line {
        Some(line) => add_on_line(told, line, verdict),
        None => Ok(()),
    }
}

fn add_on_line(told: &mut Told, line: LineNo, verdict: Verdict) -> Result<(), AllocError>
    ensures { OnOk result (IsToldOf (Some line) verdict told.old told.new) }
{
    let Verdict {
        faults,
        unchecked,
        heavy,
    } = verdict;
    add_faults(&mut told.findings, line, faults)?;
    mark(&mut told.unchecked, line, unchecked)?;
    mark(&mut told.heavy, line, heavy)?;
    Ok(())
}

// Adds the line where it is marked.
fn mark(lines: &mut Vec<LineNo>, line: LineNo, marked: bool) -> Result<(), AllocError>
    ensures { OnOk result ((l : ℕ) → Contains lines.new.items l ↔ (Contains lines.old.items l ⊎ ((line ≡ l) × IsTrue marked))) }
{
    if marked {
        lines.push(line)?;
    }
    Ok(())
}

// Adds a finding for each fault of a line.
fn add_faults(
    findings: &mut Vec<Finding>,
    line: LineNo,
    faults: Items<FaultText>,
) -> Result<(), AllocError>
    ensures { OnOk result ((f : FindingRow) → Contains findings.new.items f ↔ (Contains findings.old.items f ⊎ ((line ≡ f.line) × Contains faults (fault_in f)))) }
{
    let mut left = faults;
    while let Some(fault) = left.pop() {
        findings.push(finding(line, fault))?;
    }
    Ok(())
}

fn finding(line: LineNo, fault: FaultText) -> Finding
    ensures { result ≡ record { line = line; kind = fault.kind; text = fault.text } }
{
    Finding {
        line,
        kind: fault.kind,
        text: fault.text,
    }
}

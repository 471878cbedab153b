//! From a program to what is inferred of it.
ghost use Rattle.std.specs.Prelude.{◌≡◌, ◌≢◌, ◌↔◌, ◌≤◌, ℕ, List, Err, length, IfOk};
ghost use Rattle.std.specs.List.{Contains};
ghost use Rattle.std.specs.List.Sorted.{IsStrictlySortedBy};
ghost use Rattle.std.specs.Ordering.{nat_cmp};
ghost use Rattle.py_tokens.specs.TokenList.{TokenList};
ghost use Rattle.py_tree.specs.Tree.{Module};
ghost use Rattle.world_covering.specs.Modules.{IsPlainModule};
ghost use Rattle.type_terms.specs.StubSets.{given};
ghost use Rattle.type_terms.specs.Stubs.{stub_view};
ghost use Rattle.world_rules.specs.declared.finding.Finding.{Finding as FindingRow};
ghost use Rattle.world_rules.specs.Items.{Item};
ghost use Rattle.world_rules.specs.Rules.{IsLarger, IsLeast};
ghost use Rattle.world_rules.specs.Findings.{finding_order};
ghost use Rattle.abstract_vm.specs.Worlds.{most_items};
ghost use Rattle.infer_driver.specs.Inferred.{IsInferred, IsLeastWorld};
ghost use Rattle.infer_driver.specs.Runs.{IsProgramOf, TellsRuns};
ghost use Rattle.infer_driver.specs.Sources.{source_by, HasSettings};

use crate::order::{findings_in_order, lines_in_order};
use crate::rounds::run;
use crate::tell::{Told, tell};
use crate::{InferFault, Settings};
use abstract_vm::{VmFault, World};
use flow_graph::Steps;
use place_ids::LineNo;
use program_tables::Program;
use sqlite_items::Items;
use std::alloc::{AllocError, Global};
use std::sync::ledger::Ledger;
use type_terms::{Stub, StubSet};
use world_covering::laws::runs_are_covered;
use world_rules::Finding;
use world_rules::laws::a_larger_world_is_no_smaller;
use world_stub::stub_of;
use world_tables::laws::items_are_counted;

/// What is inferred of a program. Findings and lines stand in the order of a report, each once.
#[derive(Debug, Drop)]
pub struct Inferred {
    pub stub: Stub,
    pub findings: Items<Finding>,
    /// The lines with an operand that isn't followed.
    pub unchecked: Items<LineNo>,
    /// The lines with a query that is heavy.
    pub heavy: Items<LineNo>,
    pub world: World,
}

/// The least world of a program, and what it tells.
pub fn infer<L: Ledger>(
    alloc: Global,
    program: &Program,
    stubs: &StubSet,
    settings: Settings,
    steps: &mut Steps<L>,
) -> Result<Inferred, InferFault>
    ensures inferred { IfOk result (IsInferred (source_by program.now (given stubs.now) settings) settings) }
    ensures covered { IfOk result (λ r. (text : List ℕ) (t : TokenList) (m : Module) → IsPlainModule text t m → IsProgramOf m program.now → TellsRuns m (given stubs.now) (stub_view r.stub) r.findings r.unchecked) }
    ensures too_large { result ≡ Err InferFault.TooLarge → IsLarger (source_by program.now (given stubs.now) settings) most_items }
    ensures never { (items : List Item) → IsLeast (source_by program.now (given stubs.now) settings) items → length items ≤ most_items → result ≢ Err InferFault.TooLarge }
{
    a_larger_world_is_no_smaller();
    runs_are_covered();
    let world = least_world(alloc, program, stubs, settings, steps)?;
    match result_of(alloc, program, stubs, settings, world, steps) {
        Ok(inferred) => Ok(inferred),
        Err(_) => Err(InferFault::Memory),
    }
}

#[tactic(none)]
fn least_world<L: Ledger>(
    alloc: Global,
    program: &Program,
    stubs: &StubSet,
    settings: Settings,
    steps: &mut Steps<L>,
) -> Result<World, InferFault>
    ensures least { IfOk result (IsLeastWorld (source_by program.now (given stubs.now) settings) settings) }
    ensures too_large { result ≡ Err InferFault.TooLarge → IsLarger (source_by program.now (given stubs.now) settings) most_items }
{
    items_are_counted();
    let mut world = match World::new(alloc, program, settings.library, settings.budget) {
        Ok(world) => world,
        Err(fault) => return Err(told_fault(fault)),
    };
    match run(program, stubs, settings.depth, &mut world, steps) {
        Ok(()) => Ok(world),
        Err(fault) => Err(told_fault(fault)),
    }
}

fn told_fault(fault: VmFault) -> InferFault
    ensures { result ≡ InferFault.TooLarge ↔ (fault ≡ VmFault.Full) }
{
    match fault {
        VmFault::Full => InferFault::TooLarge,
        VmFault::Memory => InferFault::Memory,
    }
}

// All that a least world tells.
fn result_of<L: Ledger>(
    alloc: Global,
    program: &Program,
    stubs: &StubSet,
    settings: Settings,
    world: World,
    steps: &mut Steps<L>,
) -> Result<Inferred, AllocError>
    requires { IsLeastWorld (source_by program.now (given stubs.now) settings) settings world }
    ensures { IfOk result (IsInferred (source_by program.now (given stubs.now) settings) settings) }
{
    let mut judged = world;
    let stub = stub_of(alloc, program, &mut judged, steps)?;
    let told = tell(alloc, program, stubs, settings.depth, &mut judged, steps)?;
    Ok(in_order(stub, told, judged))
}

fn in_order(stub: Stub, told: Told, world: World) -> Inferred
    ensures stub { result.stub ≡ stub }
    ensures world { result.world ≡ world }
    ensures findings { (f : FindingRow) → Contains result.findings f ↔ Contains told.findings.items f }
    ensures findings_rise { IsStrictlySortedBy finding_order result.findings }
    ensures unchecked { (line : ℕ) → Contains result.unchecked line ↔ Contains told.unchecked.items line }
    ensures unchecked_rise { IsStrictlySortedBy nat_cmp result.unchecked }
    ensures heavy { (line : ℕ) → Contains result.heavy line ↔ Contains told.heavy.items line }
    ensures heavy_rise { IsStrictlySortedBy nat_cmp result.heavy }
{
    let Told {
        findings,
        unchecked,
        heavy,
    } = told;
    Inferred {
        stub,
        findings: findings_in_order(findings),
        unchecked: lines_in_order(unchecked),
        heavy: lines_in_order(heavy),
        world,
    }
}

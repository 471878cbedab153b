//! Rounds over the points of a world, until one adds nothing.
ghost use Rattle.std.specs.Prelude.{◌≡◌, ℕ, ◌<◌, ◌≤◌, Ok, true, false, IsTrue, length, IsErrOf, IfOk, OnOk};
ghost use Rattle.std.specs.List.{Contains};
ghost use Rattle.type_terms.specs.StubSets.{given};
ghost use Rattle.world_rules.specs.Items.{Item};
ghost use Rattle.world_rules.specs.Rules.{GivesAt, IsContained, IsLeast};
ghost use Rattle.abstract_vm.specs.Worlds.{items_in, point_in, source, most_items, IsWorldOf};
ghost use Rattle.infer_driver.specs.Rounds.{HasMain, IsGrown, IsQuiet};

use abstract_vm::{VmFault, World};
use flow_graph::Steps;
use place_ids::{Id, PointId};
use program_tables::Program;
use std::sync::ledger::Ledger;
use type_terms::StubSet;
use world_rules::laws::rules_go_on;
use world_tables::laws::{a_quiet_world_is_least, items_are_counted};

/// Fires the points in the order of their numbers, again and again until nothing new comes.
pub(crate) fn run<L: Ledger>(
    program: &Program,
    stubs: &StubSet,
    depth: u32,
    world: &mut World,
    steps: &mut Steps<L>,
) -> Result<(), VmFault>
    requires world { IsWorldOf (source program.now (given stubs.now) depth world.old) world.old }
    requires main { HasMain world.old }
    requires few { length (items_in world.old) ≤ most_items }
    ensures grown { IsGrown (source program.now (given stubs.now) depth world.old) world.old world.new }
    ensures least { OnOk result (IsLeast (source program.now (given stubs.now) depth world.old) (items_in world.new)) }
    ensures few { OnOk result (length (items_in world.new) ≤ most_items) }
    ensures full { IsErrOf result VmFault.Full → most_items < length (items_in world.new) }
{
    a_quiet_world_is_least();
    'rounds: loop {
        if !round(program, stubs, depth, world, steps)? {
            return Ok(());
        }
    }
}

// Fires each point once, and answers whether something new came.
fn round<L: Ledger>(
    program: &Program,
    stubs: &StubSet,
    depth: u32,
    world: &mut World,
    steps: &mut Steps<L>,
) -> Result<bool, VmFault>
    requires world { IsWorldOf (source program.now (given stubs.now) depth world.old) world.old }
    requires few { length (items_in world.old) ≤ most_items }
    ensures grown { IsGrown (source program.now (given stubs.now) depth world.old) world.old world.new }
    ensures more { IfOk result (λ more. IsTrue more → length (items_in world.old) < length (items_in world.new)) }
    ensures quiet { result ≡ Ok false → IsQuiet (source program.now (given stubs.now) depth world.old) world.new }
    ensures few { OnOk result (length (items_in world.new) ≤ most_items) }
    ensures full { IsErrOf result VmFault.Full → most_items < length (items_in world.new) }
{
    rules_go_on();
    let mut more = false;
    for number in 0..world.point_count() {
        if fire_one(program, stubs, depth, world, PointId::new(number), steps)? {
            more = true;
        }
    }
    Ok(more)
}

// Fires one point, and answers whether something new came.
fn fire_one<L: Ledger>(
    program: &Program,
    stubs: &StubSet,
    depth: u32,
    world: &mut World,
    point: PointId,
    steps: &mut Steps<L>,
) -> Result<bool, VmFault>
    requires point { point < length world.old.rows.points }
    requires world { IsWorldOf (source program.now (given stubs.now) depth world.old) world.old }
    ensures grown { IsGrown (source program.now (given stubs.now) depth world.old) world.old world.new }
    ensures given { OnOk result ((i : Item) → GivesAt (source program.now (given stubs.now) depth world.old) (items_in world.old) (point_in world.old point) i → Contains (items_in world.new) i) }
    ensures longer { length (items_in world.old) ≤ length (items_in world.new) }
    ensures more { result ≡ Ok true → length (items_in world.old) < length (items_in world.new) }
    ensures same { result ≡ Ok false → IsContained (items_in world.new) (items_in world.old) }
    ensures few { OnOk result (length (items_in world.new) ≤ most_items) }
    ensures full { IsErrOf result VmFault.Full → most_items < length (items_in world.new) }
{
    items_are_counted();
    world.fire(program, stubs, depth, point, steps)
}

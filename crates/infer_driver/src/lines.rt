//! The lines on which points stand.
ghost use Rattle.std.specs.Prelude.{◌≡◌, ◌<◌, List, ℕ, length};
ghost use Rattle.std.specs.Option.{option_copied};
ghost use Rattle.type_terms.specs.Stubs.{Stub};
ghost use Rattle.world_rules.specs.Findings.{line_of};
ghost use Rattle.world_rules.specs.Places.{code_for};
ghost use Rattle.abstract_vm.specs.Worlds.{point_in, source};
ghost use Rattle.infer_driver.specs.Lines.{line_by};

use abstract_vm::{Spot, World};
use place_ids::{FunId, LineNo, PointId};
use program_tables::Program;
use stack_code::ValidCode;

/// The line of a point, if its code has one there.
pub(crate) fn line_at(program: &Program, world: &World, point: PointId) -> Option<LineNo>
    requires { point < length world.now.rows.points }
    ensures { (stubs : List (List ℕ × Stub)) (depth : ℕ) → result ≡ line_of (source program.now stubs depth world.now) (point_in world.now point) }
{
    let _graph = world.graph();
    match world.spot(point) {
        Some(spot) => line_of_spot(program, &spot),
        None => None,
    }
}

fn line_of_spot(program: &Program, spot: &Spot) -> Option<LineNo>
    ensures { result ≡ line_by program.now spot.now }
{
    match code_for(program, spot.fun) {
        Some(code) => code.code().lines.get(spot.place as usize).copied(),
        None => None,
    }
}

// The code of the module or of a function, if there is one.
fn code_for(program: &Program, fun: Option<FunId>) -> Option<&ValidCode>
    ensures { option_copied result ≡ code_for program.now.program fun }
{
    match fun {
        None => Some(program.module_code()),
        Some(fun) => program.fun_code(fun),
    }
}

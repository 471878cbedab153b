//! Where the module's code ends.
ghost use Rattle.std.specs.Prelude.{◌≡◌, ◌↔◌, ℕ, Some, None, length, slice_get, IsTrue, IfOk};
ghost use Rattle.std.specs.List.{Contains};
ghost use Rattle.world_stub.specs.Ends.{IsEnd};

use abstract_vm::{Spot, World};
use place_ids::{Id, PointId};
use program_tables::Program;
use sqlite_items::Items;
use stack_code::Op;
use std::alloc::{AllocError, Global};

/// The points of the module's context where its code ends.
pub(crate) fn end_points(
    alloc: Global,
    program: &Program,
    world: &World,
) -> Result<Items<PointId>, AllocError>
    ensures { IfOk result (λ ends. (id : ℕ) → Contains ends id ↔ IsEnd program.now world.now.rows id) }
{
    let mut ends = Items::new(alloc);
    for number in 0..world.point_count() {
        let point = PointId::new(number);
        if is_end(program, world, point) {
            ends.push(point)?;
        }
    }
    Ok(ends)
}

fn is_end(program: &Program, world: &World, point: PointId) -> bool
    ensures { IsTrue result ↔ IsEnd program.now world.now.rows point }
{
    let _graph = world.graph();
    match world.spot(point) {
        Some(spot) => ends_there(program, &spot),
        None => false,
    }
}

fn ends_there(program: &Program, spot: &Spot) -> bool
    ensures { IsTrue result ↔ ((spot.now.fun ≡ None) × (slice_get program.now.program.body.ops spot.now.place ≡ Some Op.End)) }
{
    match spot.fun {
        Some(_) => false,
        None => ends_at(program, spot.place),
    }
}

// Whether the module's code ends at a place.
fn ends_at(program: &Program, place: u32) -> bool
    ensures { IsTrue result ↔ (slice_get program.now.program.body.ops place ≡ Some Op.End) }
{
    match program.module_code().code().ops.get(place as usize) {
        Some(Op::End) => true,
        _ => false,
    }
}

//! The spots of a code's places.
ghost use Rattle.std.specs.Prelude.{◌≡◌, ◌↔◌, Some, None, IfSome};
ghost use Rattle.std.specs.List.{Contains};
ghost use Rattle.world_tables.specs.declared.spot.PointSpot.{PointSpot as Spot};
ghost use Rattle.world_tables.specs.Rows.{IsKept};
ghost use Rattle.context_graph.specs.Places.{IsSpotAt, IsPointAt};

use crate::kept::kept;
use place_ids::{ContextId, PointId};
use stack_code::ValidCode;
use world_tables::{PointSpot, Tables};

/// A place of a context's code, with its depth, if it has one.
pub(crate) fn spot_at(code: &ValidCode, context: ContextId, place: u32) -> Option<PointSpot>
    ensures { (spot : Spot) → result ≡ Some spot ↔ IsSpotAt code.now context place spot }
{
    match code.depth_at(place) {
        Some(depth) => Some(PointSpot {
            context,
            place,
            depth,
        }),
        None => None,
    }
}

/// The point at a place of a context, if there is one.
pub(crate) fn point_of(
    tables: &Tables,
    code: &ValidCode,
    context: ContextId,
    place: u32,
) -> Option<PointId>
    ensures found { IfSome result (λ id. IsPointAt code.now tables.now context place id) }
    ensures none { result ≡ None → (spot : Spot) → IsSpotAt code.now context place spot → Contains tables.now.points spot → ⊥ }
    ensures kept { IsKept tables.now }
{
    kept(tables);
    match spot_at(code, context, place) {
        Some(spot) => tables.point_at(&spot),
        None => None,
    }
}

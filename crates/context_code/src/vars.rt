//! The numbers of the variables that seats are.
ghost use Rattle.std.specs.Prelude.{◌≡◌, Ok, Some, None, map, slice_get, IfOk, IfSome};
ghost use Rattle.context_code.specs.Seats.{owned_spots, IsOneMissing};

use crate::seats::owned_spot;
use place_ids::{ContextId, VarId};
use sqlite_items::Items;
use std::alloc::{AllocError, Global};
use world_rules::OwnedSeat;
use world_tables::Tables;

/// The variables of seats, in their order. There are none where one of them is no variable.
pub fn vars_of(
    alloc: Global,
    tables: &Tables,
    context: ContextId,
    seats: &[OwnedSeat],
) -> Result<Option<Items<VarId>>, AllocError>
    ensures found { IfOk result (λ answer. IfSome answer (λ vars. map (slice_get tables.now.variables) vars ≡ map Some (owned_spots context seats.now))) }
    ensures missing { result ≡ Ok None → IsOneMissing tables.now.variables (owned_spots context seats.now) }
{
    let mut vars = Items::new(alloc);
    for seat in seats {
        match tables.variable_at(&owned_spot(context, seat)) {
            Some(var) => vars.push(var)?,
            None => return Ok(None),
        }
    }
    Ok(Some(vars))
}

//! The variables that seats are.
ghost use Rattle.std.specs.Prelude.{◌≡◌, ℕ, ◌<◌, List};
ghost use Rattle.world_rules.specs.Places.{Context, variable_at, variable_of, slot, below_top};
ghost use Rattle.world_tables.specs.Rows as rows;
ghost use Rattle.world_tables.specs.Rows.{the_context, IsSpotThere};
ghost use Rattle.context_code.specs.Seats.{spot_of, owned_spot};

use place_ids::ContextId;
use world_rules::{OwnedSeat, Seat, SeatOwner};
use world_tables::{PointSpot, VariableSpot};

/// The variable that a seat of a context is.
pub fn spot_of(context: ContextId, seat: Seat) -> VariableSpot
    ensures is { result ≡ spot_of context seat }
    ensures stands { (contexts : List Context) → rows.variable_of contexts result ≡ variable_at (the_context contexts context) seat }
    ensures there { (count : ℕ) → context < count → IsSpotThere result count }
{
    match seat {
        Seat::Local(local) => VariableSpot::Local(context, local),
        Seat::Slot(slot) => VariableSpot::Slot(context, slot),
        Seat::Global(name) => VariableSpot::Global(name),
    }
}

/// The variable that a seat is, for an instruction of a context.
pub fn owned_spot(context: ContextId, owned: &OwnedSeat) -> VariableSpot
    ensures is { result ≡ owned_spot context owned.now }
    ensures stands { (contexts : List Context) → rows.variable_of contexts result ≡ variable_of (the_context contexts context) owned.now }
    ensures there { (count : ℕ) → context < count → IsSpotThere result count }
{
    match owned.owner {
        SeatOwner::Own => spot_of(context, owned.seat),
    }
}

/// The slot at the top of the stack.
pub fn top_spot(at: &PointSpot) -> VariableSpot
    ensures stands { (contexts : List Context) → rows.variable_of contexts result ≡ slot (the_context contexts at.now.context) (below_top at.now.depth 0) }
    ensures there { (count : ℕ) → at.now.context < count → IsSpotThere result count }
{
    VariableSpot::Slot(at.context, at.depth.saturating_sub(1))
}

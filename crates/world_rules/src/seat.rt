//! What an instruction reads, without the context in which it stands.
use place_ids::NameId;

/// Where a value lies: a local, a slot of the stack, counted from the bottom, or a global.
#[derive(Clone, Copy, Debug, PartialEq, Eq)]
pub enum Seat {
    Local(u32),
    Slot(u32),
    Global(NameId),
}

/// Whose seat it is.
#[derive(Clone, Copy, Debug, PartialEq, Eq)]
pub enum SeatOwner {
    /// The context's that the instruction stands in.
    Own,
}

/// A seat, and whose it is.
#[derive(Clone, Copy, Debug, PartialEq, Eq)]
pub struct OwnedSeat {
    pub owner: SeatOwner,
    pub seat: Seat,
}

/// Where a thread starts.
#[derive(Clone, Copy, Debug, PartialEq, Eq)]
pub enum Thread {
    /// At the module's first instruction.
    OfModule,
    /// At a function that is entered from outside.
    OfFunction,
}

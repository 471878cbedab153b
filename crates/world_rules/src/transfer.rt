//! What the rules do with the shapes that an instruction reads.
use crate::{OwnedSeat, Yield};
use place_ids::{BinOp, CompareOp, NameId, SiteId, UnaryOp};
use sqlite_items::Items;

/// What is done with the shapes that are read together.
#[derive(Clone, Copy, Debug, PartialEq, Eq)]
pub enum Transfer {
    /// Nothing is read, and nothing is given.
    Forgets,
    /// Nothing is read, and this is given.
    Makes(Yield),
    /// Nothing is read. The name is one that nothing is known of.
    Misses(NameId),
    /// The shape that is read is given.
    Copies,
    /// The shape that is read is given, and enters the table of the name.
    Stores(NameId),
    /// `not` of the shape.
    Negates,
    Applies(UnaryOp),
    /// An operator on the left shape and the right one, which may make a list or a tuple at the site.
    Combines(BinOp, SiteId),
    /// The same, in an augmented assignment.
    Changes(BinOp, SiteId),
    Compares(CompareOp),
}

/// Seats that are read together, and what is done with their shapes, in this order.
#[derive(Debug, Drop)]
pub struct SeatReading {
    pub seats: Items<OwnedSeat>,
    pub transfer: Transfer,
}

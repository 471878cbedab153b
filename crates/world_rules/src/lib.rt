//! The rules of a world as data, the worlds that are closed under them and the least one, and what is read off a world.
#![tactic(auto)]

mod finding;
pub mod laws;
mod row;
mod seat;
mod traits;
mod transfer;

pub use finding::{Fault, FaultText, Finding, FindingKind};
pub use row::{Spread, TableEntry, TableKind, TransferRow, Yield};
pub use seat::{OwnedSeat, Seat, SeatOwner, Thread};
pub use traits::{Knowledge, ShapeTraits};
pub use transfer::{SeatReading, Transfer};

//! The tables of a world: what it speaks of under numbers, with a growing call for each kind of item.
#![tactic(auto)]

pub mod laws;
mod points;
mod spot;
mod tables;
mod variables;

pub use spot::{PointSpot, VariableSpot};
pub use tables::Tables;

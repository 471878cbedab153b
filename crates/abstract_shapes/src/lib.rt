//! Abstract values by structure, the joined tables of shapes, and what types are printed for sets of shapes.
#![tactic(auto)]

mod copied;
mod hashed;
mod hashed_term;
mod joined;
mod kept;
mod kind;
pub mod laws;
mod place;
mod plain;
mod printed;
mod same;
mod shape;
mod shapes;
mod sources;
mod table;

pub use joined::Joined;
pub use place::Place;
pub use printed::type_of;
pub use shape::{Row, Shape};
pub use shapes::Shapes;

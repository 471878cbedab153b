//! Sets of shapes that tell exactly when they grew.
#![tactic(auto)]

mod planes;
mod set;
#[cfg(test)]
mod tests;

pub use set::ShapeSet;

//! The points, variables and edges of a context.
#![tactic(auto)]

mod edges;
mod finish;
mod first;
mod kept;
mod points;
mod reads;
mod roots;
mod spots;
mod variables;

pub use finish::finish_context;

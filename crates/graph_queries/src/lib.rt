//! Queries of a graph: the choices of shapes for variables, the maps that they are, and whether they are seen.
#![tactic(auto)]

mod choose;
mod goals;
mod seen;

pub use choose::choices;
pub use goals::goals_of;
pub use seen::is_seen;

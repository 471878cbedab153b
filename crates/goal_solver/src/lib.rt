//! Whether a query is visible in a typegraph, by a search backwards in which each state is met once.
#![tactic(auto)]

mod back;
pub mod laws;
mod search;
mod seek;
mod solver;
mod state;
mod state_set;
#[cfg(test)]
mod tests;

pub use solver::{Answer, Solver};

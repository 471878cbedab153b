//! Facts with their source sets over a flow.
#![tactic(auto)]

mod clash;
mod counts;
mod fact;
mod facts;
mod given;
mod goals;
mod graph;
mod places;
mod row;
#[cfg(test)]
mod tests;

pub use fact::{Fact, FactFault};
pub use goals::{Binding, GoalMap};
pub use graph::Graph;

//! Points, the edges between them, variables and call contexts.
#![tactic(auto)]

mod context;
mod edge;
mod flow;
mod point;
mod steps;
#[cfg(test)]
mod tests;

pub use context::Context;
pub use edge::{Ask, Edge, Test, Truth};
pub use flow::Flow;
pub use steps::Steps;

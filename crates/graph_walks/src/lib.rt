//! Walks through a graph of facts, over any points, variables and shapes, and the laws that hold of them. There is no code to run.
#![tactic(auto)]

pub mod laws;

//! Closed worlds cover the runs of their modules. There is no code to run.
#![tactic(auto)]

pub mod laws;

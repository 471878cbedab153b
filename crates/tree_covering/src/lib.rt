//! How a run of a module goes along the module's code. There is no code to run.
#![tactic(auto)]

pub mod laws;

//! What is asked of a world by numbers is what its rules ask by structure.
#![tactic(auto)]

pub mod laws;

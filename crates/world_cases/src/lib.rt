//! The whole least worlds of some small modules. There are laws alone.
#![tactic(auto)]

pub mod laws;

//! What a run of a module means: its events, its heap and how it ends. There is no code to run.
#![tactic(auto)]

pub mod laws;

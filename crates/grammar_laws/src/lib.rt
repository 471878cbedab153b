//! What trees have that the grammar gives, and that no tokens have two of them.
#![tactic(auto)]

pub mod laws;

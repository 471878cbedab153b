//! The descent through the grammar with one token ahead, as a definition, and that it finds the trees of the grammar.
#![tactic(auto)]

pub mod laws;

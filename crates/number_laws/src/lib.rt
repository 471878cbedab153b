//! The numbers of the functions and the classes in the tree of a module: each is the place at which it stands among them. There is no code to run.
#![tactic(auto)]

pub mod laws;

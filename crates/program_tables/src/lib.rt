//! The tables of a program: its codes, its names, and what is told of its functions and classes.
#![tactic(auto)]

mod program;

pub use program::Program;
pub use tree_code::{ClassRow, FunRow};

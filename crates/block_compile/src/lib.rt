//! The compiler: from the tree of a module to stack code.
#![tactic(auto)]

mod compiling;
mod functions;
mod place;
mod plain;
mod statements;
mod tables;

pub use compiling::compile;
pub use program_tables::{ClassRow, FunRow, Program};
pub use stack_code::{Blocks, blocks};

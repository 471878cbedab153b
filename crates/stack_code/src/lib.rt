//! Stack code: its instructions, the depths and the handlers of its places, the code that is valid, and its blocks.
#![tactic(auto)]

mod code;
mod cutting;
mod depths;
mod edges;
mod effect;
mod fault;
mod firsts;
mod handlers;
mod laws;
mod op;
mod range_tree;
mod runs;
#[cfg(test)]
mod tests;
mod valid;

pub use code::{Code, Range};
pub use cutting::blocks;
pub use effect::Effect;
pub use fault::CodeFault;
pub use op::{ConstKind, Op};
pub use runs::Blocks;
pub use valid::{ValidCode, validate};

//! From the tokens of a Python module to its tree.
#![tactic(auto)]

mod annotations;
mod arguments;
mod assignments;
mod blocks;
mod classes;
mod cursor;
mod definitions;
mod displays;
mod expressions;
mod fault;
mod imports;
mod literals;
mod marks;
mod module;
mod names;
mod nesting;
mod nodes;
mod operators;
mod parser;
mod primaries;
mod refusals;
mod statements;
mod symbols;
mod targets;

pub use fault::ParseFault;
pub use module::parse;

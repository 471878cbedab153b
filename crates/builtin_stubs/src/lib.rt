//! The functions, classes and methods that Python itself has, and its operators, as tables.
#![tactic(auto)]

mod basic;
mod builtins;
mod bytes_methods;
mod container_methods;
mod deed;
mod entries;
mod exceptions;
mod functions;
mod kinds;
pub mod laws;
mod look_ups;
mod native;
mod operand;
mod operators;
mod outside;
mod parts;
mod str_methods;
#[cfg(test)]
mod tests;

pub use basic::{Basic, OpRow};
pub use builtins::Builtins;
pub use deed::Deed;
pub use kinds::Sameness;
pub use native::{NativeId, NativeRow, NativeSort};
pub use operand::Operand;
pub use parts::{Effect, Effects, Outcome, Part, Parts, Place};

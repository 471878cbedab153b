//! The static rules of a module and what its names stand for, as definitions.
#![tactic(auto)]

mod fault;
mod jump;
pub mod laws;
mod mention;
mod method_row;
mod scope_fault;

pub use fault::{Fault, Rule};
pub use jump::{Jump, JumpSort};
pub use mention::{Mention, Role};
pub use method_row::MethodRow;
pub use scope_fault::ScopeFault;

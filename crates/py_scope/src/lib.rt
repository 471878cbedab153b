//! The static rules of a module, and what its names stand for.
#![tactic(auto)]

mod bodies;
mod builtins;
mod chain;
mod class_rules;
mod classes;
mod expressions;
mod fault;
mod first_values;
mod judging;
mod jump_rules;
mod jumps;
mod kept_class;
mod listing;
mod mention;
mod methods;
mod name_set;
mod names_of;
mod printed;
mod roles;
mod rows;
mod rules;
mod scopes;
mod scoping;
mod tables;
mod targets;
mod uses;

pub use chain::Chain;
pub use scope_rules::ScopeFault;
pub use scopes::Scopes;
pub use scoping::scope;

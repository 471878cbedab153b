//! Which forms of Python are built so far, and the line at which a module first has one that isn't.
#![tactic(auto)]

mod expressions;
mod first;
mod forms;
mod known;
mod lines;
mod statements;
mod targets;
#[cfg(test)]
mod tests;

pub use first::first_unbuilt;
pub use forms::assigned_name;

//! The text of a stub, and which stub a text means.
#![tactic(auto)]

mod bodies;
mod imports;
pub mod laws;
mod orders;
mod stub;
#[cfg(test)]
mod tests;
mod written;

pub use stub::stub_text;

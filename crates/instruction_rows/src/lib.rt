//! What each instruction reads, what comes of the shapes that it reads, and the texts of faults.
#![tactic(auto)]

mod instructions;
mod names;
mod operators;
mod rows;
mod signs;
mod texts;
mod traits;
mod words;

pub use instructions::readings;
pub use rows::row_of;
pub use texts::fault_text;

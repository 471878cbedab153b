//! From a program to its least world, its stub, its findings and the lines of its report.
#![tactic(auto)]

mod driver;
mod lines;
mod order;
mod rounds;
mod settings;
mod tell;

pub use driver::{Inferred, infer};
pub use settings::{InferFault, Settings};

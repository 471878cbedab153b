//! The tokens of a Python module.
#![tactic(auto)]

mod fault;
mod form;
mod front;
pub mod laws;
mod line;
mod list;
mod literal;
mod numeral;
mod operator;
mod place;
mod runs;
mod scan;
mod scanner;
#[cfg(test)]
mod tests;
mod token;
mod word;

pub use fault::TokenFault;
pub use form::Form;
pub use list::Tokens;
pub use runs::{run_of_name, run_of_space, run_to_line_end};
pub use scan::tokens;
pub use token::{Keyword, Op, Token, TokenKind};

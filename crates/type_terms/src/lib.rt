//! Types as a stub writes them, their normal form, and the stubs that are given.
#![tactic(auto)]

mod absorbed;
mod code;
mod copied;
mod exceptions;
mod given;
mod key;
pub mod laws;
mod member;
mod names;
mod normal_form;
mod ordered;
mod parts;
mod same;
mod stub;
mod stub_set;
mod term;
#[cfg(test)]
mod tests;
mod text;

pub use code::term_code;
pub use exceptions::{exception_at, exception_chain, exception_chains, exception_number};
pub use names::{BUILTIN_CLASSES, BUILTIN_FUNCTIONS, BUILTIN_TEXTS, TYPING_NAMES};
pub use normal_form::normal;
pub use stub::{Stub, StubClass, StubFun, StubName, StubParam};
pub use stub_set::StubSet;
pub use term::TypeTerm;
pub use text::term_text;

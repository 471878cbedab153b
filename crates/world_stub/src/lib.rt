//! The stub of a world: the type of what each printed name is seen to have where the module ends.
#![tactic(auto)]

mod ends;
mod seen;
mod stub;

pub use stub::stub_of;

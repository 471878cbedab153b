//! The stack code of a tree, as a definition, and its laws.
#![tactic(auto)]

mod instr;
mod laws;
mod rows;

pub use instr::Instr;
pub use laws::{
    assignments, bodies_stand_in_their_codes, every_code_is_valid,
    functions_stand_at_their_numbers, loops, pieces_are_solid, pieces_keep_depths,
    places_have_listed_depths, tries_guard_their_bodies,
};
pub use rows::{ClassRow, FunRow};

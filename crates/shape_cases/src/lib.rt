//! Shapes with their numbers, tables of shapes, and the types that are printed for sets. There are tests alone.
#![tactic(auto)]

#[cfg(test)]
mod tests;

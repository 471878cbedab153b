//! The tables of names of modules, and the rules that modules break. There are tests alone.
#![tactic(auto)]

#[cfg(test)]
mod tests;

//! The code of small modules, from their texts. There are tests alone.
#![tactic(auto)]

#[cfg(test)]
mod tests;

//! The tables of a world, and queries of a graph. There are tests alone.
#![tactic(auto)]

#[cfg(test)]
mod tests;

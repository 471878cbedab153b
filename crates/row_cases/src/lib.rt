//! What operators give for each pair of kinds, what names stand for, and the texts of faults. There are tests alone.
#![tactic(auto)]

#[cfg(test)]
mod tests;

//! The trees of texts, and the tokens at which texts are refused. There are tests alone.
#![tactic(auto)]

#[cfg(test)]
mod tests;

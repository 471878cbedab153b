//! The grammar of a module as a relation between tokens and a tree; no code.
#![tactic(auto)]

//! What the tokens of a text are.
mod lists;
mod literals;
mod numerals;
mod operators;
mod readings;
mod runs;
mod scans;
mod words;

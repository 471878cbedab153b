//! Small graphs, and the answers that were worked out for them by hand.
mod asks;
mod cycles;
mod draft;
mod facts;
mod rows;
mod sketch;
mod worked;

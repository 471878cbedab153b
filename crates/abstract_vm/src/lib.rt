//! The world of a program as it grows: the rules of one point fired, and what they tell of it judged.
#![tactic(auto)]

mod begin;
mod entries;
mod facts;
mod fault;
mod fire;
mod given;
mod judge;
mod judging;
mod limit;
mod output;
mod read;
mod rows;
mod spot;
mod tell;
mod verdict;
mod world;

pub use fault::VmFault;
pub use spot::Spot;
pub use verdict::Verdict;
pub use world::World;

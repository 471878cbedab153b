//! The code of one function, or of a module's body.

use crate::Op;
use place_ids::LineNo;
use sqlite_items::Items;

/// Instructions at the places from 0 on, the line of each, and the ranges that catch exceptions. `locals` and `params` are how many locals and parameters the function has.
#[derive(Debug, Drop)]
pub struct Code {
    pub ops: Items<Op>,
    pub lines: Items<LineNo>,
    pub ranges: Items<Range>,
    pub locals: u32,
    pub params: u32,
}

/// The places from `first` on and before `past`. An exception that is raised there goes on at the place `goal`, with as many slots as `depth` says.
#[derive(Clone, Copy, Debug, PartialEq, Eq)]
pub struct Range {
    pub first: u32,
    pub past: u32,
    pub goal: u32,
    pub depth: u32,
}

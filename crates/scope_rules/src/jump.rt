//! Where a body leaves a loop or a function.
use place_ids::LineNo;

#[derive(Clone, Copy, Debug, PartialEq, Eq)]
pub enum JumpSort {
    /// `break` or `continue` with no loop around it.
    Exit,
    Return,
    ReturnValue,
}

#[derive(Clone, Copy, Debug, PartialEq, Eq)]
pub struct Jump {
    pub sort: JumpSort,
    pub line: LineNo,
}

//! A static rule, and where it is broken.
use place_ids::LineNo;

/// A static rule. They stand in the order of their numbers.
#[derive(Clone, Copy, Debug, PartialEq, Eq)]
pub enum Rule {
    Rebound,
    BuiltinBound,
    BaseUnknown,
    DuplicateParam,
    BreakOutsideLoop,
    ReturnOutside,
    InitReturns,
    SuperUse,
    MethodRule,
}

/// A rule that is broken at a line.
#[derive(Clone, Copy, Debug, PartialEq, Eq)]
pub struct Fault {
    pub rule: Rule,
    pub line: LineNo,
}

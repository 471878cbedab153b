//! Why a module breaks a static rule.
use place_ids::LineNo;
use thiserror::Error;

/// The first broken rule, with its line.
#[derive(Clone, Copy, Debug, PartialEq, Eq, Error)]
pub enum ScopeFault {
    /// The module binds a name by `def` or `class` and another time.
    #[error("a function's or class's name is bound again")]
    Rebound(LineNo),
    /// The module binds a builtin name, or other than by import one that stubs take from `typing`.
    #[error("a builtin name is bound")]
    BuiltinBound(LineNo),
    /// A base is no earlier class, not `object` and no builtin exception class.
    #[error("an unknown base")]
    BaseUnknown(LineNo),
    /// A parameter's name stands twice.
    #[error("a parameter's name stands twice")]
    DuplicateParam(LineNo),
    /// `break` or `continue` outside a loop.
    #[error("a break outside a loop")]
    BreakOutsideLoop(LineNo),
    /// `return` outside a function.
    #[error("a return outside a function")]
    ReturnOutside(LineNo),
    /// `return` with a value in a method `__init__`.
    #[error("a value is returned from __init__")]
    InitReturns(LineNo),
    /// `super()` outside a method, or in one that binds its first parameter again.
    #[error("super() where it may not stand")]
    SuperUse(LineNo),
    /// A class body that the profile doesn't have.
    #[error("a class body that is not allowed")]
    MethodRule(LineNo),
    #[error("out of memory")]
    Memory,
}

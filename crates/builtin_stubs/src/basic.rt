//! The kinds of values that operators and methods tell apart.

/// A kind of values. `Other` has the functions, classes, modules and instances.
#[derive(Clone, Copy, Debug, PartialEq, Eq)]
pub enum Basic {
    NoneKind,
    Bool,
    Int,
    Float,
    Str,
    Bytes,
    List,
    Dict,
    Tuple,
    View,
    Range,
    Exception,
    Other,
}

/// What an operator gives: a fault, or a value of one of some kinds.
#[derive(Clone, Copy, Debug, PartialEq, Eq)]
pub enum OpRow {
    Fault,
    Kinds(&'static [Basic]),
}

//! Each rule at its lines: what breaks it, and what is near to that and does not.
use super::outline::Line::*;
use super::outline::Row;
use scope_rules::Rule;

/// A name that a `def` or a `class` binds is bound again.
pub static REBOUND: [Row; 10] = [
    Row {
        lines: &[(1, 0, Assign("x")), (2, 0, Def("x", &[]))],
        want: Some((Rule::Rebound, 2)),
    },
    Row {
        lines: &[(1, 0, Def("x", &[])), (2, 0, Assign("x"))],
        want: Some((Rule::Rebound, 2)),
    },
    Row {
        lines: &[
            (1, 0, Assign("x")),
            (2, 0, Assign("x")),
            (3, 0, Class("x", "")),
        ],
        want: Some((Rule::Rebound, 3)),
    },
    Row {
        lines: &[(1, 0, Class("x", "")), (2, 0, If), (3, 1, Import("x"))],
        want: Some((Rule::Rebound, 3)),
    },
    Row {
        lines: &[(1, 0, Def("x", &[])), (3, 0, Except("x"))],
        want: Some((Rule::Rebound, 3)),
    },
    Row {
        lines: &[(1, 0, Def("x", &[])), (2, 0, For("x"))],
        want: Some((Rule::Rebound, 2)),
    },
    Row {
        lines: &[
            (1, 0, Def("x", &[])),
            (2, 0, Def("x", &[])),
            (3, 0, Def("x", &[])),
        ],
        want: Some((Rule::Rebound, 2)),
    },
    Row {
        lines: &[(1, 0, Def("x", &[])), (2, 0, Annotated("x"))],
        want: Some((Rule::Rebound, 2)),
    },
    Row {
        lines: &[(1, 0, Assign("x")), (2, 0, Import("x")), (3, 0, For("x"))],
        want: None,
    },
    Row {
        lines: &[
            (1, 0, Def("x", &[])),
            (2, 0, Def("f", &["x"])),
            (3, 1, Assign("x")),
        ],
        want: None,
    },
];

/// A builtin name is bound, or other than by import one that stubs take from `typing`.
pub static BUILTIN_BOUND: [Row; 10] = [
    Row {
        lines: &[(1, 0, Pass), (2, 0, Assign("print"))],
        want: Some((Rule::BuiltinBound, 2)),
    },
    Row {
        lines: &[(1, 0, Import("zip"))],
        want: Some((Rule::BuiltinBound, 1)),
    },
    Row {
        lines: &[(1, 0, From("KeyError"))],
        want: Some((Rule::BuiltinBound, 1)),
    },
    Row {
        lines: &[(1, 0, Class("object", ""))],
        want: Some((Rule::BuiltinBound, 1)),
    },
    Row {
        lines: &[(1, 0, Annotated("__file__"))],
        want: Some((Rule::BuiltinBound, 1)),
    },
    Row {
        lines: &[(1, 0, While), (2, 1, For("UnicodeEncodeError"))],
        want: Some((Rule::BuiltinBound, 2)),
    },
    Row {
        lines: &[(1, 0, Def("List", &[]))],
        want: Some((Rule::BuiltinBound, 1)),
    },
    Row {
        lines: &[(1, 0, From("List"))],
        want: None,
    },
    Row {
        lines: &[
            (1, 0, Assign("abs")),
            (2, 0, Assign("base_init")),
            (3, 0, Assign("append")),
        ],
        want: None,
    },
    Row {
        lines: &[(1, 0, Def("f", &["print"])), (2, 1, Assign("len"))],
        want: None,
    },
];

/// A base is unknown.
pub static BASE_UNKNOWN: [Row; 7] = [
    Row {
        lines: &[(1, 0, Class("A", "B")), (2, 1, Pass)],
        want: Some((Rule::BaseUnknown, 1)),
    },
    Row {
        lines: &[(1, 0, Class("A", "A"))],
        want: Some((Rule::BaseUnknown, 1)),
    },
    Row {
        lines: &[(1, 0, Class("A", "B")), (2, 0, Class("B", ""))],
        want: Some((Rule::BaseUnknown, 1)),
    },
    Row {
        lines: &[(1, 0, Assign("B")), (2, 0, Class("A", "B"))],
        want: Some((Rule::BaseUnknown, 2)),
    },
    Row {
        lines: &[(1, 0, Class("A", "int"))],
        want: Some((Rule::BaseUnknown, 1)),
    },
    Row {
        lines: &[(1, 0, Class("A", "object")), (2, 0, Class("B", "A"))],
        want: None,
    },
    Row {
        lines: &[(1, 0, Class("A", "TimeoutError")), (2, 0, Class("B", ""))],
        want: None,
    },
];

/// A parameter's name stands twice.
pub static DUPLICATE_PARAM: [Row; 6] = [
    Row {
        lines: &[(1, 0, Def("f", &["a", "a"])), (2, 1, Pass)],
        want: Some((Rule::DuplicateParam, 1)),
    },
    Row {
        lines: &[(1, 0, Pass), (2, 0, Def("f", &["a", "b", "a"]))],
        want: Some((Rule::DuplicateParam, 2)),
    },
    Row {
        lines: &[(1, 0, Class("A", "")), (2, 1, Def("m", &["a", "b", "b"]))],
        want: Some((Rule::DuplicateParam, 2)),
    },
    Row {
        lines: &[(1, 0, Def("f", &["a", "b"])), (2, 1, Assign("a"))],
        want: None,
    },
    Row {
        lines: &[(1, 0, Def("f", &["f"]))],
        want: None,
    },
    Row {
        lines: &[(1, 0, Def("f", &["a"])), (2, 0, Def("g", &["a"]))],
        want: None,
    },
];

/// `break` or `continue` outside of a loop.
pub static BREAK_OUTSIDE_LOOP: [Row; 8] = [
    Row {
        lines: &[(1, 0, Break)],
        want: Some((Rule::BreakOutsideLoop, 1)),
    },
    Row {
        lines: &[(1, 0, If), (2, 1, Continue)],
        want: Some((Rule::BreakOutsideLoop, 2)),
    },
    Row {
        lines: &[(1, 0, Def("f", &[])), (2, 1, Break)],
        want: Some((Rule::BreakOutsideLoop, 2)),
    },
    Row {
        lines: &[(1, 0, While), (2, 1, Pass), (3, 0, Break)],
        want: Some((Rule::BreakOutsideLoop, 3)),
    },
    Row {
        lines: &[(2, 0, Except("e")), (3, 1, Continue)],
        want: Some((Rule::BreakOutsideLoop, 3)),
    },
    Row {
        lines: &[(1, 0, While), (2, 1, If), (3, 2, Break)],
        want: None,
    },
    Row {
        lines: &[(1, 0, For("x")), (3, 1, Except("e")), (4, 2, Continue)],
        want: None,
    },
    Row {
        lines: &[(1, 0, Def("f", &[])), (2, 1, While), (3, 2, Break)],
        want: None,
    },
];

/// `return` outside of a function.
pub static RETURN_OUTSIDE: [Row; 5] = [
    Row {
        lines: &[(1, 0, Return)],
        want: Some((Rule::ReturnOutside, 1)),
    },
    Row {
        lines: &[(1, 0, If), (2, 1, ReturnValue)],
        want: Some((Rule::ReturnOutside, 2)),
    },
    Row {
        lines: &[(1, 0, Def("f", &[])), (2, 1, Return), (3, 0, Return)],
        want: Some((Rule::ReturnOutside, 3)),
    },
    Row {
        lines: &[(1, 0, While), (2, 1, Return)],
        want: Some((Rule::ReturnOutside, 2)),
    },
    Row {
        lines: &[(1, 0, Def("f", &[])), (2, 1, If), (3, 2, ReturnValue)],
        want: None,
    },
];

/// `return` with a value in a method `__init__`.
pub static INIT_RETURNS: [Row; 5] = [
    Row {
        lines: &[
            (1, 0, Class("A", "")),
            (2, 1, Def("__init__", &["self"])),
            (3, 2, ReturnValue),
        ],
        want: Some((Rule::InitReturns, 3)),
    },
    Row {
        lines: &[
            (1, 0, Class("A", "")),
            (2, 1, Def("__init__", &["self"])),
            (3, 2, If),
            (4, 3, ReturnValue),
        ],
        want: Some((Rule::InitReturns, 4)),
    },
    Row {
        lines: &[
            (1, 0, Class("A", "")),
            (2, 1, Def("__init__", &["self"])),
            (3, 2, Return),
        ],
        want: None,
    },
    Row {
        lines: &[
            (1, 0, Class("A", "")),
            (2, 1, Def("m", &["self"])),
            (3, 2, ReturnValue),
        ],
        want: None,
    },
    Row {
        lines: &[(1, 0, Def("__init__", &["self"])), (2, 1, ReturnValue)],
        want: None,
    },
];

/// `super()` outside of a method, or in one that binds its first parameter again.
pub static SUPER_USE: [Row; 8] = [
    Row {
        lines: &[(1, 0, Def("f", &[])), (2, 1, ReturnSuper)],
        want: Some((Rule::SuperUse, 2)),
    },
    Row {
        lines: &[(1, 0, Super)],
        want: Some((Rule::SuperUse, 1)),
    },
    Row {
        lines: &[(1, 0, Def("f", &["self"])), (2, 1, Super)],
        want: Some((Rule::SuperUse, 2)),
    },
    Row {
        lines: &[
            (1, 0, Class("A", "")),
            (2, 1, Def("m", &["self"])),
            (3, 2, Super),
            (4, 2, Assign("self")),
        ],
        want: Some((Rule::SuperUse, 3)),
    },
    Row {
        lines: &[
            (1, 0, Class("A", "")),
            (2, 1, Def("m", &["self"])),
            (4, 2, Except("self")),
            (5, 3, Super),
        ],
        want: Some((Rule::SuperUse, 5)),
    },
    Row {
        lines: &[
            (1, 0, Class("A", "")),
            (2, 1, Def("m", &["self"])),
            (3, 2, Super),
        ],
        want: None,
    },
    Row {
        lines: &[
            (1, 0, Class("A", "")),
            (2, 1, Def("m", &["self", "x"])),
            (3, 2, Assign("x")),
            (4, 2, Super),
        ],
        want: None,
    },
    Row {
        lines: &[
            (1, 0, Class("A", "")),
            (2, 1, Def("m", &["self"])),
            (3, 2, Store("self")),
            (4, 2, Super),
        ],
        want: None,
    },
];

/// Class bodies that the profile does not have.
pub static METHOD_RULE: [Row; 13] = [
    Row {
        lines: &[(1, 0, Class("A", "")), (2, 1, Def("m", &[]))],
        want: Some((Rule::MethodRule, 2)),
    },
    Row {
        lines: &[
            (1, 0, Class("A", "")),
            (2, 1, Assign("x")),
            (3, 1, Assign("x")),
        ],
        want: Some((Rule::MethodRule, 3)),
    },
    Row {
        lines: &[
            (1, 0, Class("A", "")),
            (2, 1, Def("x", &["a"])),
            (3, 1, Assign("x")),
        ],
        want: Some((Rule::MethodRule, 3)),
    },
    Row {
        lines: &[
            (1, 0, Class("A", "")),
            (2, 1, Assign("x")),
            (3, 1, Read("y", "x")),
        ],
        want: Some((Rule::MethodRule, 3)),
    },
    Row {
        lines: &[
            (1, 0, Class("A", "")),
            (2, 1, Read("y", "x")),
            (3, 1, Def("x", &["a"])),
        ],
        want: Some((Rule::MethodRule, 2)),
    },
    Row {
        lines: &[(1, 0, Class("A", "")), (2, 1, Assign("__init__"))],
        want: Some((Rule::MethodRule, 2)),
    },
    Row {
        lines: &[(1, 0, Class("A", "")), (2, 1, Annotated("__init__"))],
        want: Some((Rule::MethodRule, 2)),
    },
    Row {
        lines: &[(1, 0, Store("__init__"))],
        want: Some((Rule::MethodRule, 1)),
    },
    Row {
        lines: &[(1, 0, Def("f", &[])), (2, 1, AnnotatedStore("__init__"))],
        want: Some((Rule::MethodRule, 2)),
    },
    Row {
        lines: &[
            (1, 0, Class("A", "")),
            (2, 1, Annotated("x")),
            (3, 1, Assign("x")),
        ],
        want: None,
    },
    Row {
        lines: &[
            (1, 0, Class("A", "")),
            (2, 1, Annotated("x")),
            (3, 1, Read("y", "x")),
        ],
        want: None,
    },
    Row {
        lines: &[
            (1, 0, Assign("x")),
            (2, 0, Class("A", "")),
            (3, 1, Read("y", "x")),
        ],
        want: None,
    },
    Row {
        lines: &[
            (1, 0, Class("A", "")),
            (2, 1, Def("__init__", &["a"])),
            (3, 0, Assign("__init__")),
        ],
        want: None,
    },
];

/// Rules that meet, on one line and on two.
pub static MEETING: [Row; 9] = [
    Row {
        lines: &[(1, 0, Break), (2, 0, Assign("print"))],
        want: Some((Rule::BreakOutsideLoop, 1)),
    },
    Row {
        lines: &[(1, 0, Break), (1, 0, Assign("print"))],
        want: Some((Rule::BuiltinBound, 1)),
    },
    Row {
        lines: &[(1, 0, Def("print", &[])), (2, 0, Assign("print"))],
        want: Some((Rule::BuiltinBound, 1)),
    },
    Row {
        lines: &[(1, 0, Def("f", &[])), (2, 0, Def("f", &["a", "a"]))],
        want: Some((Rule::Rebound, 2)),
    },
    Row {
        lines: &[(1, 0, Class("A", "B")), (1, 1, Assign("__init__"))],
        want: Some((Rule::BaseUnknown, 1)),
    },
    Row {
        lines: &[(1, 0, Return), (1, 0, Super)],
        want: Some((Rule::ReturnOutside, 1)),
    },
    Row {
        lines: &[(1, 0, Super), (2, 0, Return)],
        want: Some((Rule::SuperUse, 1)),
    },
    Row {
        lines: &[
            (1, 0, Class("A", "")),
            (2, 1, Def("__init__", &[])),
            (2, 2, ReturnValue),
        ],
        want: Some((Rule::InitReturns, 2)),
    },
    Row {
        lines: &[
            (1, 0, Def("f", &[])),
            (2, 1, Store("__init__")),
            (3, 0, Assign("f")),
        ],
        want: Some((Rule::MethodRule, 2)),
    },
];

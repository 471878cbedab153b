//! The builtin functions and classes (library reference, "Built-in Functions").
use crate::Basic;
use crate::NativeSort::{Class, Function, Value};
use crate::Outcome::{FreshObject, LeastOrMost, NewDict, NewList, NewTuple, PairView, TestsClass};
use crate::Part::{Items, Keys, Kind, Values, WordNames, WordValues};
use crate::Parts::{One, Two};
use crate::entries::{any, gives, only, takes};
use crate::native::Entry;

/// The functions, and the classes but the exceptions, in the order of their numbers.
pub(crate) const FUNCTIONS: &[Entry] = &[
    ("print", Function, any!(), &[], gives!(NoneKind)),
    ("input", Function, any!(), &[], gives!(Str)),
    ("len", Function, takes!(1), &[], gives!(Int)),
    ("ord", Function, takes!(1), &[], gives!(Int)),
    ("repr", Function, takes!(1), &[], gives!(Str)),
    ("chr", Function, takes!(1), &[], gives!(Str)),
    ("isinstance", Function, takes!(2), &[], only!(TestsClass)),
    (
        "sorted",
        Function,
        takes!(1),
        &["reverse"],
        only!(NewList(One(Items(0)))),
    ),
    ("min", Function, takes!(1 to any), &[], only!(LeastOrMost)),
    ("max", Function, takes!(1 to any), &[], only!(LeastOrMost)),
    (
        "enumerate",
        Function,
        takes!(1 to 2),
        &[],
        only!(PairView {
            first: One(Kind(Basic::Int)),
            second: One(Items(0))
        }),
    ),
    (
        "zip",
        Function,
        takes!(2),
        &[],
        only!(PairView {
            first: One(Items(0)),
            second: One(Items(1))
        }),
    ),
    (
        "list",
        Class,
        takes!(0 to 1),
        &[],
        only!(NewList(One(Items(0)))),
    ),
    (
        "tuple",
        Class,
        takes!(0 to 1),
        &[],
        only!(NewTuple(One(Items(0)))),
    ),
    (
        "dict",
        Class,
        takes!(0 to 1 and words),
        &[],
        only!(NewDict {
            keys: Two(Keys(0), WordNames),
            values: Two(Values(0), WordValues)
        }),
    ),
    ("str", Class, any!(), &[], gives!(Str)),
    ("int", Class, any!(), &[], gives!(Int)),
    ("float", Class, any!(), &[], gives!(Float)),
    ("bytes", Class, any!(), &[], gives!(Bytes)),
    ("bool", Class, takes!(0 to 1), &[], gives!(Bool)),
    ("range", Class, takes!(1 to 3), &[], gives!(Range)),
    ("object", Class, takes!(0), &[], only!(FreshObject)),
];

/// What stands behind the exceptions. `base_init` is the `__init__` of a class that defines none.
pub(crate) const OTHERS: &[Entry] = &[
    ("base_init", Function, any!(), &[], gives!(NoneKind)),
    ("__name__", Value, takes!(0), &[], gives!(Str)),
    ("__file__", Value, takes!(0), &[], gives!(Str)),
];

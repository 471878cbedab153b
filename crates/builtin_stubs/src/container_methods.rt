//! The methods of lists, dicts and tuples (library reference, "Mutable Sequence Types", "Mapping Types", "Common Sequence Operations").
use crate::Deed::{
    Clears, GetsValue, Inserts, PopsPair, PopsPart, RemovesPart, SetsDefault, Updates,
};
use crate::NativeSort::Method;
use crate::Outcome::{NewDict, NewList, PairView, View};
use crate::Part::{Argument, Items, OwnElements, OwnKeys, OwnValues};
use crate::Parts::One;
use crate::entries::{any, enters, gives, only, takes};
use crate::native::Entry;

pub(crate) const LIST_METHODS: &[Entry] = &[
    (
        "append",
        Method,
        takes!(1),
        &[],
        enters!(Elements, Argument(0)),
    ),
    ("insert", Method, takes!(2), &[], Inserts),
    (
        "extend",
        Method,
        takes!(1),
        &[],
        enters!(Elements, Items(0)),
    ),
    ("pop", Method, takes!(0 to 1), &[], PopsPart),
    ("remove", Method, takes!(1), &[], RemovesPart),
    ("clear", Method, takes!(0), &[], Clears),
    ("reverse", Method, takes!(0), &[], gives!(NoneKind)),
    ("sort", Method, takes!(0), &["reverse"], gives!(NoneKind)),
    ("index", Method, takes!(1 to 3), &[], gives!(Int)),
    ("count", Method, takes!(1), &[], gives!(Int)),
    (
        "copy",
        Method,
        takes!(0),
        &[],
        only!(NewList(One(OwnElements))),
    ),
];

pub(crate) const DICT_METHODS: &[Entry] = &[
    ("get", Method, takes!(1 to 2), &[], GetsValue),
    ("pop", Method, takes!(1 to 2), &[], PopsPair),
    ("setdefault", Method, takes!(2), &[], SetsDefault),
    ("update", Method, takes!(1), &[], Updates),
    ("keys", Method, takes!(0), &[], only!(View(One(OwnKeys)))),
    (
        "values",
        Method,
        takes!(0),
        &[],
        only!(View(One(OwnValues))),
    ),
    (
        "items",
        Method,
        takes!(0),
        &[],
        only!(PairView {
            first: One(OwnKeys),
            second: One(OwnValues)
        }),
    ),
    ("clear", Method, takes!(0), &[], Clears),
    (
        "copy",
        Method,
        takes!(0),
        &[],
        only!(NewDict {
            keys: One(OwnKeys),
            values: One(OwnValues)
        }),
    ),
];

pub(crate) const TUPLE_METHODS: &[Entry] = &[
    ("index", Method, any!(), &[], gives!(Int)),
    ("count", Method, any!(), &[], gives!(Int)),
];

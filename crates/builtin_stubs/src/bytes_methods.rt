//! The methods of bytes, numbers and exceptions (library reference, "Bytes and Bytearray Operations", "Numeric Types", "Built-in Exceptions").
use crate::NativeSort::{Method, Value};
use crate::Outcome::{NotFollowed, TupleOfAnything};
use crate::entries::{any, gives, only, takes};
use crate::native::Entry;

pub(crate) const BYTES_METHODS: &[Entry] = &[
    ("decode", Method, any!(), &[], gives!(Str)),
    ("hex", Method, any!(), &[], gives!(Str)),
    ("startswith", Method, any!(), &[], gives!(Bool)),
    ("endswith", Method, any!(), &[], gives!(Bool)),
    ("split", Method, any!(), &[], only!(NotFollowed)),
    ("join", Method, any!(), &[], only!(NotFollowed)),
    ("strip", Method, any!(), &[], only!(NotFollowed)),
    ("replace", Method, any!(), &[], only!(NotFollowed)),
];

/// Of ints and of truth values.
pub(crate) const INT_METHODS: &[Entry] = &[("bit_length", Method, takes!(0), &[], gives!(Int))];

pub(crate) const FLOAT_METHODS: &[Entry] = &[("is_integer", Method, takes!(0), &[], gives!(Bool))];

pub(crate) const EXCEPTION_METHODS: &[Entry] = &[
    ("args", Value, takes!(0), &[], only!(TupleOfAnything)),
    ("with_traceback", Method, any!(), &[], only!(NotFollowed)),
];

//! What comes of shapes that are read together.
use crate::Fault;
use abstract_shapes::Place;
use builtin_stubs::NativeId;
use sqlite_items::Items;

/// A shape that a rule gives.
#[derive(Clone, Copy, Debug, PartialEq, Eq)]
pub enum Yield {
    /// The one at this place among the shapes that are read.
    Read(u32),
    NoneValue,
    TrueValue,
    FalseValue,
    Int,
    Float,
    Str,
    Bytes,
    /// A function or a class of Python's own.
    Native(NativeId),
    Ext,
    Any,
    /// Each shape of a joined table.
    Each(Place),
}

/// A shape that enters a joined table.
#[derive(Clone, Copy, Debug, PartialEq, Eq)]
pub struct TableEntry {
    pub place: Place,
    pub given: Yield,
}

/// The tables of all lists, or of all dicts.
#[derive(Clone, Copy, Debug, PartialEq, Eq)]
pub enum TableKind {
    Elements,
    Keys,
    Values,
}

/// A shape that enters each table of a kind.
#[derive(Clone, Copy, Debug, PartialEq, Eq)]
pub struct Spread {
    pub tables: TableKind,
    pub given: Yield,
}

/// What the target gets, what enters joined tables, whether an edge goes over to the next point, the fault, and whether the line
/// is unchecked. There may be both results and a fault.
#[derive(Debug, Drop)]
pub struct TransferRow {
    pub results: Items<Yield>,
    pub entries: Items<TableEntry>,
    pub spreads: Items<Spread>,
    pub over: bool,
    pub fault: Option<Fault>,
    pub unchecked: bool,
}

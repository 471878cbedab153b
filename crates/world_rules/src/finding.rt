//! Faults, and the findings that a report tells.
use place_ids::{BinOp, CompareOp, LineNo, NameId, Text, UnaryOp};

/// The kinds of findings, in the order of a report.
#[derive(Clone, Copy, Debug, PartialEq, Eq)]
pub enum FindingKind {
    ImportError,
    NameError,
    AttributeError,
    UnsupportedOperands,
    NotIterable,
    NotCallable,
    WrongArgCount,
    MissingParameter,
    WrongKeywordArgs,
    DuplicateKeyword,
}

/// A fault of an instruction, for the shapes that it reads.
#[derive(Clone, Copy, Debug, PartialEq, Eq)]
pub enum Fault {
    /// Nothing has this name.
    Name(NameId),
    Unary(UnaryOp),
    Binary(BinOp),
    /// Of an augmented assignment.
    InPlace(BinOp),
    Compare(CompareOp),
}

/// A fault as a report tells it.
#[derive(Debug, Drop)]
pub struct FaultText {
    pub kind: FindingKind,
    pub text: Text,
}

/// A fault as a report tells it, with its line.
#[derive(Debug, Drop)]
pub struct Finding {
    pub line: LineNo,
    pub kind: FindingKind,
    pub text: Text,
}

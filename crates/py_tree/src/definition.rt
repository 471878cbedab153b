//! Functions and classes ("Function definitions", "Class definitions").
use crate::{Expr, Literal, Stmt};
use place_ids::{ClassId, FunId, LineNo, NameId};

/// A function or a method. Its line is that of the word `def`.
#[cycle(statements)]
#[derive(Debug, PartialEq, Drop)]
pub struct FunDef {
    pub id: FunId,
    pub name: NameId,
    pub params: Vec<Param>,
    pub body: Vec<Stmt>,
    pub line: LineNo,
}

/// A parameter, and its default if it has one. Annotations are not kept.
#[derive(Clone, Copy, Debug, PartialEq, Eq)]
pub struct Param {
    pub name: NameId,
    pub default: Option<Literal>,
}

/// A class. Its line is that of the word `class`.
#[cycle(statements)]
#[derive(Debug, PartialEq, Drop)]
pub struct ClassDef {
    pub id: ClassId,
    pub name: NameId,
    pub base: Option<NameId>,
    pub members: Vec<Member>,
    pub line: LineNo,
}

/// A part of a class body.
#[cycle(statements)]
#[derive(Debug, PartialEq, Drop)]
pub enum Member {
    Pass,
    /// `...`
    Ellipsis,
    /// A text that stands by itself.
    Text,
    /// `name = value`
    Value(NameId, Expr, LineNo),
    /// `name: annotation = value`, or without the value.
    Annotated(NameId, Option<Expr>, LineNo),
    Method(FunDef),
}

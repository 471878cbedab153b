//! Statements ("Simple statements", "Compound statements").
use crate::{ClassDef, Expr, FunDef};
use place_ids::{BinOp, LineNo, NameId};

/// A statement. Its line is that of its first token.
#[cycle(statements)]
#[derive(Debug, PartialEq, Drop)]
pub struct Stmt {
    pub kind: StmtKind,
    pub line: LineNo,
}

/// What a statement is. An `else` that is not there is an empty body, and `elif` is a further arm.
#[cycle(statements)]
#[derive(Debug, PartialEq, Drop)]
pub enum StmtKind {
    Pass,
    Break,
    Continue,
    /// `...`
    Ellipsis,
    Return(Option<Expr>),
    /// What is raised, and its cause.
    Raise(Option<Expr>, Option<Expr>),
    /// The test, and the message.
    Assert(Expr, Option<Expr>),
    Import(Vec<ImportPart>),
    /// The module's path, and the names taken from it.
    From(Vec<NameId>, Vec<FromPart>),
    Global(Vec<NameId>),
    /// The targets from the left, and the value.
    Assign(Vec<Expr>, Expr),
    Augment(Expr, BinOp, Expr),
    /// A target with an annotation, which is not kept, and the value.
    Annotated(Expr, Option<Expr>),
    Expression(Expr),
    /// The arms, and the `else` body.
    If(Vec<Arm>, Vec<Stmt>),
    While(Expr, Vec<Stmt>),
    /// The target, what is gone through, and the body.
    For(Expr, Expr, Vec<Stmt>),
    /// The body, the `except` clauses, and the `else` body.
    Try(Vec<Stmt>, Vec<Handler>, Vec<Stmt>),
    Def(FunDef),
    Class(ClassDef),
}

/// A module that `import` names by its path, and the name that it gets.
#[derive(Debug, PartialEq, Drop)]
pub struct ImportPart {
    pub path: Vec<NameId>,
    pub alias: Option<NameId>,
}

/// A name that `from` takes from a module, and the name that it gets.
#[derive(Clone, Copy, Debug, PartialEq, Eq)]
pub struct FromPart {
    pub name: NameId,
    pub alias: Option<NameId>,
}

/// A test of an `if` statement, and the body that it leads to.
#[cycle(statements)]
#[derive(Debug, PartialEq, Drop)]
pub struct Arm {
    pub test: Expr,
    pub body: Vec<Stmt>,
}

/// An `except` clause. Its line is that of the word `except`.
#[cycle(statements)]
#[derive(Debug, PartialEq, Drop)]
pub struct Handler {
    pub class: Option<Expr>,
    pub name: Option<NameId>,
    pub body: Vec<Stmt>,
    pub line: LineNo,
}

//! Expressions ("Expressions"), and targets, which are expressions too.
use crate::Literal;
use place_ids::{BinOp, CompareOp, LineNo, NameId, SiteId, UnaryOp};

/// An expression. Its line is that of its first token, and its site numbers it among the expressions of the module.
#[cycle(expressions)]
#[derive(Debug, PartialEq, Drop)]
pub struct Expr {
    pub kind: ExprKind,
    pub line: LineNo,
    pub site: SiteId,
}

/// What an expression is. Round brackets leave no trace.
#[cycle(expressions)]
#[derive(Debug, PartialEq, Drop)]
pub enum ExprKind {
    Name(NameId),
    Literal(Literal),
    Unary(UnaryOp, Box<Expr>),
    Binary(BinOp, Box<Expr>, Box<Expr>),
    Compare(CompareOp, Box<Expr>, Box<Expr>),
    Not(Box<Expr>),
    And(Box<Expr>, Box<Expr>),
    Or(Box<Expr>, Box<Expr>),
    /// `then if test else other`, in this order.
    Choice(Box<Expr>, Box<Expr>, Box<Expr>),
    Attr(Box<Expr>, NameId),
    /// `super().name`
    Super(NameId),
    Item(Box<Expr>, Box<Expr>),
    /// What is sliced, and the bounds and the step as far as they are written.
    Slice(Box<Expr>, Option<Box<Expr>>, Option<Box<Expr>>, Option<Box<Expr>>),
    Call(Box<Expr>, Vec<Arg>),
    Tuple(Vec<Expr>),
    List(Vec<Expr>),
    Dict(Vec<Pair>),
}

/// An argument of a call, with its keyword if it has one.
#[cycle(expressions)]
#[derive(Debug, PartialEq, Drop)]
pub struct Arg {
    pub name: Option<NameId>,
    pub value: Expr,
}

/// A key of a dict and its value.
#[cycle(expressions)]
#[derive(Debug, PartialEq, Drop)]
pub struct Pair {
    pub key: Expr,
    pub value: Expr,
}

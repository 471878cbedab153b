//! Trees that are made part by part, on line 1 and at site 9.
use place_ids::{BinOp, CompareOp, FunId, Id, LineNo, NameId, Names, SiteId, UnaryOp};
use py_tree::{
    Arg, Expr, ExprKind, FromPart, FunDef, ImportPart, Literal, Module, Pair, Param, Stmt, StmtKind,
};
use std::alloc::{AllocError, Global};
use std::test::Fail;

/// An expression of a table.
#[derive(Clone, Copy)]
pub(super) enum Tree {
    Local,
    Constant,
    Negative,
    Difference,
    Comparison,
    Both,
    Choice,
    Slice,
    Call,
    Tuple,
    List,
    Dict,
    Item,
    Attribute,
}

pub(super) fn built(alloc: Global, tree: Tree) -> Result<Expr, AllocError> {
    match tree {
        Tree::Local => Ok(name(1)),
        Tree::Constant => Ok(none()),
        Tree::Negative => negative(alloc),
        Tree::Difference => difference(alloc),
        Tree::Comparison => comparison(alloc),
        Tree::Both => both(alloc),
        Tree::Choice => choice(alloc),
        Tree::Slice => slice(alloc),
        Tree::Call => call(alloc),
        Tree::Tuple => tuple(alloc),
        Tree::List => list(alloc),
        Tree::Dict => dict(alloc),
        Tree::Item => item(alloc),
        Tree::Attribute => attribute(alloc),
    }
}

pub(super) fn line() -> LineNo {
    LineNo::new(1)
}

fn node(kind: ExprKind) -> Expr {
    Expr {
        kind,
        line: line(),
        site: SiteId::new(9),
    }
}

pub(super) fn name(number: u32) -> Expr {
    node(ExprKind::Name(NameId::new(number)))
}

fn boxed(alloc: Global, number: u32) -> Result<Box<Expr>, AllocError> {
    Ok(Box::new(alloc, name(number))?)
}

pub(super) fn none() -> Expr {
    node(ExprKind::Literal(Literal::NoneValue))
}

fn negative(alloc: Global) -> Result<Expr, AllocError> {
    Ok(node(ExprKind::Unary(UnaryOp::Minus, boxed(alloc, 1)?)))
}

fn difference(alloc: Global) -> Result<Expr, AllocError> {
    let left = boxed(alloc, 1)?;
    let right = boxed(alloc, 2)?;
    Ok(node(ExprKind::Binary(BinOp::Sub, left, right)))
}

fn comparison(alloc: Global) -> Result<Expr, AllocError> {
    let left = boxed(alloc, 2)?;
    let right = boxed(alloc, 1)?;
    Ok(node(ExprKind::Compare(CompareOp::Less, left, right)))
}

fn both(alloc: Global) -> Result<Expr, AllocError> {
    let left = boxed(alloc, 1)?;
    let right = boxed(alloc, 2)?;
    Ok(node(ExprKind::And(left, right)))
}

fn choice(alloc: Global) -> Result<Expr, AllocError> {
    let then = boxed(alloc, 1)?;
    let test = boxed(alloc, 2)?;
    let other = boxed(alloc, 3)?;
    Ok(node(ExprKind::Choice(then, test, other)))
}

fn slice(alloc: Global) -> Result<Expr, AllocError> {
    let sliced = boxed(alloc, 1)?;
    let from = boxed(alloc, 2)?;
    Ok(node(ExprKind::Slice(sliced, Some(from), None, None)))
}

fn call(alloc: Global) -> Result<Expr, AllocError> {
    let fun = boxed(alloc, 2)?;
    let plain = Arg {
        name: None,
        value: name(1),
    };
    let keyword = Arg {
        name: Some(NameId::new(3)),
        value: name(4),
    };
    Ok(node(ExprKind::Call(fun, vec![in alloc; plain, keyword]?)))
}

fn tuple(alloc: Global) -> Result<Expr, AllocError> {
    Ok(node(ExprKind::Tuple(vec![in alloc; name(1), name(2)]?)))
}

fn list(alloc: Global) -> Result<Expr, AllocError> {
    Ok(node(ExprKind::List(vec![in alloc; name(2)]?)))
}

fn dict(alloc: Global) -> Result<Expr, AllocError> {
    let pair = Pair {
        key: name(1),
        value: name(2),
    };
    Ok(node(ExprKind::Dict(vec![in alloc; pair]?)))
}

/// `x[y]`
fn item(alloc: Global) -> Result<Expr, AllocError> {
    let container = boxed(alloc, 1)?;
    let index = boxed(alloc, 2)?;
    Ok(node(ExprKind::Item(container, index)))
}

/// `y.z`
fn attribute(alloc: Global) -> Result<Expr, AllocError> {
    Ok(node(ExprKind::Attr(boxed(alloc, 2)?, NameId::new(3))))
}

/// A path of two names, and the name that it gets.
fn import(alloc: Global, alias: Option<u32>) -> Result<ImportPart, AllocError> {
    Ok(ImportPart {
        path: vec![in alloc; NameId::new(2), NameId::new(3)]?,
        alias: alias.map(|number| NameId::new(number)),
    })
}

/// The path as it is, and under the name of number 1.
pub(super) fn imports(alloc: Global) -> Result<Vec<ImportPart>, AllocError> {
    let plain = import(alloc, None)?;
    let named = import(alloc, Some(1))?;
    Ok(vec![in alloc; plain, named]?)
}

pub(super) fn targets(alloc: Global) -> Result<Vec<Expr>, AllocError> {
    Ok(vec![in alloc; name(2), name(1)]?)
}

pub(super) fn part(number: u32, alias: Option<u32>) -> FromPart {
    FromPart {
        name: NameId::new(number),
        alias: alias.map(|number| NameId::new(number)),
    }
}

fn function(alloc: Global, name: NameId, param: NameId) -> Result<Stmt, AllocError> {
    let param = Param {
        name: param,
        default: None,
    };
    let pass = Stmt {
        kind: StmtKind::Pass,
        line: line(),
    };
    let fun = FunDef {
        id: FunId::new(0),
        name,
        params: vec![in alloc; param]?,
        body: vec![in alloc; pass]?,
        line: line(),
    };
    Ok(Stmt {
        kind: StmtKind::Def(fun),
        line: line(),
    })
}

/// A module with a function, whose one local has the number 1 as a name.
pub(super) fn module(alloc: Global) -> Result<Module, Fail> {
    let mut names = Names::new(alloc);
    let fun = names.intern("f")?;
    let param = names.intern("x")?;
    let def = function(alloc, fun, param)?;
    let body = vec![in alloc; def]?;
    Ok(Module { body, names })
}

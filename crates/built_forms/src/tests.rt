//! Modules that are made part by part, and the line of their first form that isn't built.
use crate::first_unbuilt;
use place_ids::{Id, LineNo, NameId, Names, SiteId};
use py_tree::{Expr, ExprKind, Literal, Module, Stmt, StmtKind};
use std::alloc::{AllocError, Global};
use std::test::Fail;

fn node(kind: ExprKind, line: u32) -> Expr {
    Expr {
        kind,
        line: LineNo::new(line),
        site: SiteId::new(0),
    }
}

fn name(number: u32, line: u32) -> Expr {
    node(ExprKind::Name(NameId::new(number)), line)
}

fn none(line: u32) -> Expr {
    node(ExprKind::Literal(Literal::NoneValue), line)
}

fn pass(line: u32) -> Stmt {
    Stmt {
        kind: StmtKind::Pass,
        line: LineNo::new(line),
    }
}

fn assign(alloc: Global, target: Expr, value: Expr, line: u32) -> Result<Stmt, AllocError> {
    let mut targets = Vec::new(alloc);
    targets.push(target)?;
    Ok(Stmt {
        kind: StmtKind::Assign(targets, value),
        line: LineNo::new(line),
    })
}

// The first such line of a module of two statements.
fn first_of(alloc: Global, first: Stmt, second: Stmt) -> Result<Option<u32>, AllocError> {
    let mut body = Vec::new(alloc);
    body.push(first)?;
    body.push(second)?;
    let module = Module {
        body,
        names: Names::new(alloc),
    };
    let line = first_unbuilt(alloc, &module)?;
    Ok(line.map(|line| line.number()))
}

#[test]
fn a_plain_module_has_no_such_line(rt: HostRuntime) -> Result<(), Fail> {
    let alloc = rt.alloc();
    let first = assign(alloc, name(0, 1), none(1), 1)?;
    let second = assign(alloc, name(1, 2), name(0, 2), 2)?;
    assert_eq!(rt; first_of(alloc, first, second)?, None);
    Ok(())
}

#[test]
fn a_read_before_the_assignment_has_its_own_line(rt: HostRuntime) -> Result<(), Fail> {
    let alloc = rt.alloc();
    let first = assign(alloc, name(1, 1), name(0, 2), 1)?;
    let second = assign(alloc, name(0, 3), none(3), 3)?;
    assert_eq!(rt; first_of(alloc, first, second)?, Some(2));
    Ok(())
}

#[test]
fn a_name_is_not_read_before_its_own_statement(rt: HostRuntime) -> Result<(), Fail> {
    let alloc = rt.alloc();
    let first = assign(alloc, name(0, 1), name(0, 1), 1)?;
    assert_eq!(rt; first_of(alloc, first, pass(5))?, Some(1));
    Ok(())
}

#[test]
fn an_attribute_is_no_target(rt: HostRuntime) -> Result<(), Fail> {
    let alloc = rt.alloc();
    let owner = Box::new(alloc, name(0, 4))?;
    let target = node(ExprKind::Attr(owner, NameId::new(1)), 4);
    let first = assign(alloc, target, none(6), 4)?;
    assert_eq!(rt; first_of(alloc, first, pass(7))?, Some(4));
    Ok(())
}

#[test]
fn the_least_line_is_told(rt: HostRuntime) -> Result<(), Fail> {
    assert_eq!(rt; first_of(rt.alloc(), pass(9), pass(4))?, Some(4));
    Ok(())
}

//! Trees that are made part by part, and what they have in them.
mod build;

use crate::*;
use build::*;
use place_ids::{ClassId, FunId, Id, LineNo, NameId, SiteId};
use std::test::Fail;

fn word(number: u32) -> Expr {
    name(NameId::new(number), LineNo::new(2), SiteId::new(number))
}

#[test]
fn operands_stand_in_their_order(rt: HostRuntime) -> Result<(), Fail> {
    let alloc = rt.alloc();
    let added = sum(alloc, word(0), word(1), SiteId::new(2))?;
    let shown = format!(in alloc; "{:?}", added.kind)?;
    assert_eq!(rt;
        shown.as_str(),
        "Binary(Add, Expr { kind: Name(NameId(0)), line: LineNo(2), site: SiteId(0) }, Expr { kind: Name(NameId(1)), line: LineNo(2), site: SiteId(1) })"
    );
    assert_eq!(rt; (added.line.number(), added.site.number()), (2, 2));
    let whole = Box::new(alloc, word(0))?;
    let first = Box::new(alloc, word(1))?;
    let part = slice(whole, Some(first), None, None, SiteId::new(2));
    let shown = format!(in alloc; "{:?}", part.kind)?;
    assert_eq!(rt;
        shown.as_str(),
        "Slice(Expr { kind: Name(NameId(0)), line: LineNo(2), site: SiteId(0) }, Some(Expr { kind: Name(NameId(1)), line: LineNo(2), site: SiteId(1) }), None, None)"
    );
    Ok(())
}

#[test]
fn arguments_have_their_keywords(rt: HostRuntime) -> Result<(), Fail> {
    let alloc = rt.alloc();
    let called = call(
        alloc,
        word(0),
        word(1),
        NameId::new(7),
        word(2),
        SiteId::new(3),
    )?;
    let ExprKind::Call(fun, args) = called.kind else {
        assert!(rt; false);
        return Ok(());
    };
    assert_eq!(rt; *fun, word(0));
    let first = Arg {
        name: None,
        value: word(1),
    };
    let second = Arg {
        name: Some(NameId::new(7)),
        value: word(2),
    };
    assert_eq!(rt; args.as_slice(), [first, second].as_slice());
    Ok(())
}

#[test]
fn blocks_have_their_lines(rt: HostRuntime) -> Result<(), Fail> {
    let alloc = rt.alloc();
    let chosen = choose(
        alloc,
        word(0),
        Vec::new(alloc),
        LineNo::new(2),
        LineNo::new(4),
    )?;
    let shown = format!(in alloc; "{chosen:?}")?;
    assert_eq!(rt;
        shown.as_str(),
        "Stmt { kind: If([Arm { test: Expr { kind: Name(NameId(0)), line: LineNo(2), site: SiteId(0) }, body: [] }], [Stmt { kind: Pass, line: LineNo(4) }]), line: LineNo(2) }"
    );
    let tried = attempt(
        alloc,
        Vec::new(alloc),
        None,
        NameId::new(1),
        Vec::new(alloc),
        Vec::new(alloc),
        LineNo::new(5),
    )?;
    let shown = format!(in alloc; "{tried:?}")?;
    assert_eq!(rt;
        shown.as_str(),
        "Stmt { kind: Try([], [Handler { class: None, name: Some(NameId(1)), body: [], line: LineNo(5) }], []), line: LineNo(5) }"
    );
    Ok(())
}

#[test]
fn definitions_have_their_ids(rt: HostRuntime) -> Result<(), Fail> {
    let alloc = rt.alloc();
    let defined = def(
        alloc,
        FunId::new(3),
        NameId::new(0),
        NameId::new(1),
        Literal::Int(true, 5),
        Vec::new(alloc),
        LineNo::new(2),
    )?;
    let shown = format!(in alloc; "{:?}", defined.kind)?;
    assert_eq!(rt;
        shown.as_str(),
        "Def(FunDef { id: FunId(3), name: NameId(0), params: [Param { name: NameId(1), default: Some(Int(true, 5)) }], body: [], line: LineNo(2) })"
    );
    let kept = members(
        alloc,
        value(NameId::new(2), word(3), LineNo::new(4)),
        Member::Text,
    )?;
    let made = class(
        ClassId::new(1),
        NameId::new(0),
        NameId::new(5),
        kept,
        LineNo::new(3),
    );
    let shown = format!(in alloc; "{:?}", made.kind)?;
    assert_eq!(rt;
        shown.as_str(),
        "Class(ClassDef { id: ClassId(1), name: NameId(0), base: Some(NameId(5)), members: [Value(NameId(2), Expr { kind: Name(NameId(3)), line: LineNo(2), site: SiteId(3) }, LineNo(4)), Text], line: LineNo(3) })"
    );
    Ok(())
}

#[test]
fn names_stand_in_their_parts(rt: HostRuntime) -> Result<(), Fail> {
    let alloc = rt.alloc();
    let path = vec![in alloc; NameId::new(0), NameId::new(1)]?;
    let imported = import(alloc, path, NameId::new(2), LineNo::new(1))?;
    let shown = format!(in alloc; "{:?}", imported.kind)?;
    assert_eq!(rt;
        shown.as_str(),
        "Import([ImportPart { path: [NameId(0), NameId(1)], alias: Some(NameId(2)) }])"
    );
    let path = vec![in alloc; NameId::new(0)]?;
    let taken = from(alloc, path, NameId::new(1), NameId::new(2), LineNo::new(1))?;
    let shown = format!(in alloc; "{:?}", taken.kind)?;
    assert_eq!(rt;
        shown.as_str(),
        "From([NameId(0)], [FromPart { name: NameId(1), alias: Some(NameId(2)) }])"
    );
    let bound = assign(alloc, word(0), word(1), word(2))?;
    let StmtKind::Assign(targets, value) = bound.kind else {
        assert!(rt; false);
        return Ok(());
    };
    assert_eq!(rt;
        (targets.as_slice(), value),
        ([word(0), word(1)].as_slice(), word(2))
    );
    Ok(())
}

//! What code grows where memory is ample, in a function whose local is the name of number 1.
mod trees;

use crate::*;
use place_ids::{BinOp, FunId, Id, NameId};
use py_scope::{Scopes, scope};
use stack_code::{Code, Op, Range};
use std::alloc::{AllocError, Global};
use std::test::Fail;
use trees::{Tree, built};

// A tree, and the text of its code.
#[derive(Clone, Copy)]
struct Row {
    tree: Tree,
    code: &'static str,
}

fn names_in(scopes: &Scopes) -> Names<'_> {
    Names::of_function(scopes, FunId::new(0))
}

// Each instruction, and the ranges.
fn put_code(out: &mut String, code: &Code) -> Result<(), AllocError> {
    for op in code.ops.as_slice() {
        write!(out, "{op:?}; ")?;
    }
    for range in code.ranges.as_slice() {
        write!(
            out,
            "[{} {} {} {}] ",
            range.first, range.past, range.goal, range.depth
        )?;
    }
    Ok(())
}

// The text of the code that it has become, with the numbers of its locals and parameters.
fn text_of(alloc: Global, buffer: Buffer) -> Result<String, AllocError> {
    let code = buffer.finish(2, 1)?;
    let mut out = String::new(alloc);
    put_code(&mut out, &code)?;
    write!(out, "{} {}", code.locals, code.params)?;
    Ok(out)
}

// Jumps that are aimed and landed, in a loop and out of it, and a range.
fn jumps(alloc: Global) -> Result<String, AllocError> {
    let mut buffer = Buffer::new(alloc);
    let test = buffer.push_open(Op::JumpIfTrue(0), trees::line())?;
    buffer.push(Op::Caught, trees::line())?;
    buffer.aim(test, Op::JumpIfTrue(5), trees::line());
    let outer = buffer.open_loop();
    buffer.push_leave(trees::line())?;
    buffer.push(Op::Pop, trees::line())?;
    buffer.close_loop(outer);
    let end = buffer.push_open(Op::Jump(0), trees::line())?;
    buffer.push(Op::Return, trees::line())?;
    buffer.land(&[end]);
    let number = buffer.open_range()?;
    buffer.set_range(
        number,
        Range {
            first: 0,
            past: 2,
            goal: 5,
            depth: 1,
        },
    );
    text_of(buffer.alloc(), buffer)
}

#[test]
fn jumps_lead_where_they_are_aimed(rt: HostRuntime) -> Result<(), Fail> {
    assert_eq!(rt;
        jumps(rt.alloc())?.as_str(),
        "JumpIfTrue(5); Caught; Jump(4); Pop; Jump(6); Return; [0 2 5 1] 2 1"
    );
    Ok(())
}

// Expressions and what pushes their values, by hand.
static VALUES: [Row; 12] = [
    Row {
        tree: Tree::Local,
        code: "LoadLocal(0); 2 1",
    },
    Row {
        tree: Tree::Constant,
        code: "Const(NoneValue); 2 1",
    },
    Row {
        tree: Tree::Negative,
        code: "LoadLocal(0); Unary(Minus); 2 1",
    },
    Row {
        tree: Tree::Difference,
        code: "LoadLocal(0); LoadName(NameId(2)); Binary(Sub, SiteId(9)); 2 1",
    },
    Row {
        tree: Tree::Comparison,
        code: "LoadName(NameId(2)); LoadLocal(0); Compare(Less); 2 1",
    },
    Row {
        tree: Tree::Both,
        code: "LoadLocal(0); JumpIfFalseKeep(3); LoadName(NameId(2)); 2 1",
    },
    Row {
        tree: Tree::Choice,
        code: "LoadName(NameId(2)); JumpIfFalse(4); LoadLocal(0); Jump(5); LoadName(NameId(3)); 2 1",
    },
    Row {
        tree: Tree::Slice,
        code: "LoadLocal(0); LoadName(NameId(2)); Const(NoneValue); Const(NoneValue); Slice(SiteId(9)); 2 1",
    },
    Row {
        tree: Tree::Call,
        code: "LoadName(NameId(2)); LoadLocal(0); LoadName(NameId(4)); Call(1, Items { items: [NameId(3)] }, SiteId(9)); 2 1",
    },
    Row {
        tree: Tree::Tuple,
        code: "LoadLocal(0); LoadName(NameId(2)); NewTuple(2, SiteId(9)); 2 1",
    },
    Row {
        tree: Tree::List,
        code: "LoadName(NameId(2)); NewList(1, SiteId(9)); 2 1",
    },
    Row {
        tree: Tree::Dict,
        code: "LoadLocal(0); LoadName(NameId(2)); NewDict(1, SiteId(9)); 2 1",
    },
];

// Targets and what stores into them, by hand.
static TARGETS: [Row; 4] = [
    Row {
        tree: Tree::Local,
        code: "StoreLocal(0); 2 1",
    },
    Row {
        tree: Tree::Attribute,
        code: "LoadName(NameId(2)); Pick(1); StoreAttr(NameId(3)); Pop; 2 1",
    },
    Row {
        tree: Tree::Item,
        code: "LoadLocal(0); LoadName(NameId(2)); Pick(2); StoreItem; Pop; 2 1",
    },
    Row {
        tree: Tree::Tuple,
        code: "Part(1, 2); Part(0, 2); StoreLocal(0); StoreName(NameId(2)); Pop; 2 1",
    },
];

fn value_text(alloc: Global, names: &Names<'_>, tree: Tree) -> Result<String, AllocError> {
    let mut buffer = Buffer::new(alloc);
    push_value(&mut buffer, names, &built(alloc, tree)?)?;
    text_of(alloc, buffer)
}

fn put_text(alloc: Global, names: &Names<'_>, tree: Tree) -> Result<String, AllocError> {
    let mut buffer = Buffer::new(alloc);
    push_put(&mut buffer, names, &built(alloc, tree)?)?;
    text_of(alloc, buffer)
}

// The first row whose value has other code than it should, with that code.
fn first_value(
    alloc: Global,
    names: &Names<'_>,
    rows: &[Row],
) -> Result<Option<String>, AllocError> {
    for row in rows {
        let text = value_text(alloc, names, row.tree)?;
        if text.as_str() != row.code {
            return Ok(Some(text));
        }
    }
    Ok(None)
}

// The same of targets.
fn first_target(
    alloc: Global,
    names: &Names<'_>,
    rows: &[Row],
) -> Result<Option<String>, AllocError> {
    for row in rows {
        let text = put_text(alloc, names, row.tree)?;
        if text.as_str() != row.code {
            return Ok(Some(text));
        }
    }
    Ok(None)
}

#[test]
fn expressions_and_targets_become_their_code(rt: HostRuntime) -> Result<(), Fail> {
    let module = trees::module(rt.alloc())?;
    let scopes = scope(rt.alloc(), &module)?;
    let names = names_in(&scopes);
    assert_eq!(rt; first_value(rt.alloc(), &names, &VALUES)?, None);
    assert_eq!(rt; first_target(rt.alloc(), &names, &TARGETS)?, None);
    Ok(())
}

// `return x`, and what is evaluated alone.
fn ends(alloc: Global, names: &Names<'_>) -> Result<String, AllocError> {
    let mut buffer = Buffer::new(alloc);
    push_expression(&mut buffer, names, &trees::name(2), trees::line())?;
    push_return(&mut buffer, names, &None, trees::line())?;
    text_of(alloc, buffer)
}

// `raise y from x`, and `assert x, y`, where the exception is the name of number 4.
fn raises(alloc: Global, names: &Names<'_>) -> Result<String, AllocError> {
    let mut buffer = Buffer::new(alloc);
    let raised = Some(trees::name(2));
    let cause = Some(trees::name(1));
    push_raise(&mut buffer, names, &raised, &cause, trees::line())?;
    push_assert(
        &mut buffer,
        names,
        NameId::new(4),
        &trees::name(1),
        &raised,
        trees::line(),
    )?;
    text_of(alloc, buffer)
}

// `import y.z, y.z as x`, and `from y import z as x`.
fn modules(alloc: Global, names: &Names<'_>) -> Result<String, AllocError> {
    let mut buffer = Buffer::new(alloc);
    let imports = trees::imports(alloc)?;
    push_imports(&mut buffer, names, imports.as_slice(), trees::line())?;
    push_froms(
        &mut buffer,
        names,
        &[NameId::new(2)],
        &[trees::part(3, Some(1))],
        trees::line(),
    )?;
    text_of(alloc, buffer)
}

// `y = x = None`, and `y: t`, where `y.z` stands for `y`.
fn stores(alloc: Global, names: &Names<'_>) -> Result<String, AllocError> {
    let mut buffer = Buffer::new(alloc);
    let targets = trees::targets(alloc)?;
    push_assign(
        &mut buffer,
        names,
        targets.as_slice(),
        &trees::none(),
        trees::line(),
    )?;
    push_annotated(
        &mut buffer,
        names,
        &built(alloc, Tree::Attribute)?,
        &None,
        trees::line(),
    )?;
    text_of(alloc, buffer)
}

// `x[y] += z`
fn changes(alloc: Global, names: &Names<'_>) -> Result<String, AllocError> {
    let mut buffer = Buffer::new(alloc);
    push_augment(
        &mut buffer,
        names,
        &built(alloc, Tree::Item)?,
        BinOp::Add,
        &trees::name(3),
        trees::line(),
    )?;
    text_of(alloc, buffer)
}

// Statements of one kind.
#[derive(Clone, Copy)]
enum Group {
    Ends,
    Raises,
    Modules,
    Stores,
    Changes,
}

fn group_text(alloc: Global, names: &Names<'_>, group: Group) -> Result<String, AllocError> {
    match group {
        Group::Ends => ends(alloc, names),
        Group::Raises => raises(alloc, names),
        Group::Modules => modules(alloc, names),
        Group::Stores => stores(alloc, names),
        Group::Changes => changes(alloc, names),
    }
}

// What they should become, by hand.
static STATEMENTS: [(Group, &str); 5] = [
    (
        Group::Ends,
        "LoadName(NameId(2)); Pop; Const(NoneValue); Return; 2 1",
    ),
    (
        Group::Raises,
        "LoadName(NameId(2)); LoadLocal(0); Pop; MakeRaised(SiteId(9)); Raise; LoadLocal(0); JumpIfTrue(12); LoadName(NameId(2)); Pop; LoadName(NameId(4)); MakeRaised(SiteId(9)); Raise; 2 1",
    ),
    (
        Group::Modules,
        "Import(Items { items: [NameId(2), NameId(3)] }); StoreName(NameId(2)); Import(Items { items: [NameId(2), NameId(3)] }); StoreLocal(0); ImportFrom(Items { items: [NameId(2)] }, NameId(3)); StoreLocal(0); 2 1",
    ),
    (
        Group::Stores,
        "Const(NoneValue); Pick(0); StoreName(NameId(2)); StoreLocal(0); LoadName(NameId(2)); Pop; 2 1",
    ),
    (
        Group::Changes,
        "LoadLocal(0); LoadName(NameId(2)); Pick(1); Pick(1); Item; LoadName(NameId(3)); InPlace(Add, SiteId(9)); StoreItem; 2 1",
    ),
];

// The first group that becomes other code than it should, with that code.
fn first_group(
    alloc: Global,
    names: &Names<'_>,
    rows: &[(Group, &str)],
) -> Result<Option<String>, AllocError> {
    for (group, code) in rows {
        let text = group_text(alloc, names, *group)?;
        if text.as_str() != *code {
            return Ok(Some(text));
        }
    }
    Ok(None)
}

#[test]
fn simple_statements_become_their_code(rt: HostRuntime) -> Result<(), Fail> {
    let module = trees::module(rt.alloc())?;
    let scopes = scope(rt.alloc(), &module)?;
    let names = names_in(&scopes);
    assert_eq!(rt; first_group(rt.alloc(), &names, &STATEMENTS)?, None);
    Ok(())
}

//! The code of targets, which takes a value off and stores it.
ghost use Rattle.std.specs.Prelude.{OnOk};
ghost use Rattle.py_tree.specs.View.{expr_view, exprs_view};
ghost use Rattle.stack_code.specs.declared.op.Op.TheVariants as op;
ghost use Rattle.tree_code.specs.Pieces.{one, ◌⨾◌};
ghost use Rattle.tree_code.specs.Expressions.{value, parts as spec_parts, put, puts, count};
ghost use Rattle.expr_compile.specs.Growth.{Grows};

use crate::buffer::Buffer;
use crate::names::Names;
use crate::values::{counted, push_value};
use place_ids::{LineNo, NameId};
use py_tree::{Expr, ExprKind};
use stack_code::Op;
use std::alloc::AllocError;

/// Puts the code that stores the value on the top into a target at the end.
#[cycle(targets)]
#[tactic(auto, using(crate::proofs::Sizes::growing))]
pub fn push_put(buffer: &mut Buffer, names: &Names<'_>, target: &Expr) -> Result<(), AllocError>
    ensures { OnOk result (Grows (put names.now (expr_view target.now)) buffer.old buffer.new) }
{
    let line = target.line;
    match &target.kind {
        ExprKind::Name(name) => buffer.push(names.store(*name), line),
        ExprKind::Attr(object, name) => push_attr_store(buffer, names, object, *name, line),
        ExprKind::Item(container, index) => push_item_store(buffer, names, container, index, line),
        ExprKind::Tuple(targets) | ExprKind::List(targets) => {
            push_unpack(buffer, names, targets.as_slice(), line)
        }
        ExprKind::Literal(_)
        | ExprKind::Unary(_, _)
        | ExprKind::Binary(_, _, _)
        | ExprKind::Compare(_, _, _)
        | ExprKind::Not(_)
        | ExprKind::And(_, _)
        | ExprKind::Or(_, _)
        | ExprKind::Choice(_, _, _)
        | ExprKind::Super(_)
        | ExprKind::Slice(_, _, _, _)
        | ExprKind::Call(_, _)
        | ExprKind::Dict(_) => buffer.push(Op::Pop, line),
    }
}

#[tactic(auto, using(crate::proofs::Sizes::growing))]
fn push_attr_store(
    buffer: &mut Buffer,
    names: &Names<'_>,
    object: &Expr,
    name: NameId,
    line: LineNo,
) -> Result<(), AllocError>
    ensures { OnOk result (Grows (value names.now (expr_view object.now) ⨾ one (op.Pick 1) line ⨾ one (op.StoreAttr name) line ⨾ one op.Pop line) buffer.old buffer.new) }
{
    push_value(buffer, names, object)?;
    buffer.push(Op::Pick(1), line)?;
    buffer.push(Op::StoreAttr(name), line)?;
    buffer.push(Op::Pop, line)?;
    Ok(())
}

#[tactic(auto, using(crate::proofs::Sizes::growing))]
fn push_item_store(
    buffer: &mut Buffer,
    names: &Names<'_>,
    container: &Expr,
    index: &Expr,
    line: LineNo,
) -> Result<(), AllocError>
    ensures { OnOk result (Grows (value names.now (expr_view container.now) ⨾ value names.now (expr_view index.now) ⨾ one (op.Pick 2) line ⨾ one op.StoreItem line ⨾ one op.Pop line) buffer.old buffer.new) }
{
    push_value(buffer, names, container)?;
    push_value(buffer, names, index)?;
    buffer.push(Op::Pick(2), line)?;
    buffer.push(Op::StoreItem, line)?;
    buffer.push(Op::Pop, line)?;
    Ok(())
}

// The parts of the value, from the last on, then each target, and the value goes.
#[cycle(targets)]
#[tactic(auto, using(crate::proofs::Sizes::growing))]
fn push_unpack(
    buffer: &mut Buffer,
    names: &Names<'_>,
    targets: &[Expr],
    line: LineNo,
) -> Result<(), AllocError>
    ensures { OnOk result (Grows (spec_parts line (count (exprs_view targets.now)) (count (exprs_view targets.now)) ⨾ puts names.now (exprs_view targets.now) ⨾ one op.Pop line) buffer.old buffer.new) }
{
    let parts = counted(targets.len())?;
    push_parts(buffer, parts, line)?;
    push_puts(buffer, names, targets)?;
    buffer.push(Op::Pop, line)?;
    Ok(())
}

// The parts of the value on the top, from the last on.
#[tactic(auto, using(crate::proofs::Sizes::growing))]
fn push_parts(buffer: &mut Buffer, parts: u32, line: LineNo) -> Result<(), AllocError>
    ensures { OnOk result (Grows (spec_parts line parts parts) buffer.old buffer.new) }
{
    let mut part = parts;
    while part > 0 {
        part -= 1;
        buffer.push(Op::Part(part, parts), line)?;
    }
    Ok(())
}

#[cycle(targets)]
#[tactic(auto, using(crate::proofs::Sizes::growing))]
fn push_puts(buffer: &mut Buffer, names: &Names<'_>, targets: &[Expr]) -> Result<(), AllocError>
    ensures { OnOk result (Grows (puts names.now (exprs_view targets.now)) buffer.old buffer.new) }
{
    for target in targets {
        push_put(buffer, names, target)?;
    }
    Ok(())
}

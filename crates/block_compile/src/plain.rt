//! The code of statements that have no statements in them, but for the functions of a class.
ghost use Rattle.std.specs.Prelude.{ℕ, OnOk, [], cond, option_map};
ghost use Rattle.py_tree.specs.Tree.{declared};
ghost use Rattle.py_tree.specs.View.{expr_view, stmt_kind_view, class_view, fun_view, members_view, member_view};
ghost use Rattle.stack_code.specs.declared.op.Op.TheVariants as op;
ghost use Rattle.tree_code.specs.Pieces.{◌⨾◌, one, go_out};
ghost use Rattle.tree_code.specs.Expressions.{value as spec_value};
ghost use Rattle.tree_code.specs.Statements.{defines, defines_class, member_values};
ghost use Rattle.block_compile.specs.Emits.{Emits};
ghost use Rattle.expr_compile.specs.Growth.{Grows};
ghost use Rattle.block_compile.specs.PlaceOf.{standing, plain_code, member_value};

use crate::place::Place;
use expr_compile::{
    Buffer, Names, push_annotated, push_assert, push_assign, push_augment, push_expression,
    push_froms, push_imports, push_raise, push_return, push_value,
};
use place_ids::{ClassId, LineNo, NameId};
use py_tree::{ClassDef, Expr, FunDef, Member, StmtKind};
use stack_code::Op;
use std::alloc::AllocError;

/// A statement that has no body and is no jump.
pub fn push_plain(
    buffer: &mut Buffer,
    names: &Names<'_>,
    at: &Place,
    kind: &StmtKind,
    line: LineNo,
) -> Result<(), AllocError>
    ensures { OnOk result (Grows (plain_code (standing names.now at.now) line (stmt_kind_view kind.now)) buffer.old buffer.new) }
{
    match kind {
        StmtKind::Return(value) => push_return(buffer, names, value, line),
        StmtKind::Raise(raised, cause) => push_raise(buffer, names, raised, cause, line),
        StmtKind::Assert(test, message) => push_assert(
            buffer, names, at.error, test, message, line,
        ),
        StmtKind::Import(parts) => push_imports(buffer, names, parts.as_slice(), line),
        StmtKind::From(path, parts) => {
            push_froms(buffer, names, path.as_slice(), parts.as_slice(), line)
        }
        StmtKind::Assign(targets, value) => {
            push_assign(buffer, names, targets.as_slice(), value, line)
        }
        StmtKind::Augment(target, op, value) => {
            push_augment(buffer, names, target, *op, value, line)
        }
        StmtKind::Annotated(target, value) => push_annotated(buffer, names, target, value, line),
        StmtKind::Expression(value) => push_expression(buffer, names, value, line),
        StmtKind::Def(fun) => push_def(buffer, fun, line),
        StmtKind::Class(class) => push_class(buffer, names, class, line),
        _ => Ok(()),
    }
}

/// `break`. The iterable of a `for` goes where it is left.
pub fn push_break(buffer: &mut Buffer, keeps: bool, line: LineNo) -> Result<(), AllocError>
    ensures { OnOk result ((again : ℕ) → Emits (cond keeps (one op.Pop line ⨾ go_out line) (go_out line)) again buffer.old buffer.new) }
{
    if keeps {
        buffer.push(Op::Pop, line)?;
    }
    buffer.push_leave(line)
}

fn push_def(buffer: &mut Buffer, fun: &FunDef, line: LineNo) -> Result<(), AllocError>
    ensures { OnOk result (Grows (defines line (fun_view fun.now)) buffer.old buffer.new) }
{
    buffer.push(Op::Fun(fun.id), line)?;
    buffer.push(Op::StoreName(fun.name), line)
}

// The values of the members, and then the class.
fn push_class(
    buffer: &mut Buffer,
    names: &Names<'_>,
    class: &ClassDef,
    line: LineNo,
) -> Result<(), AllocError>
    ensures { OnOk result (Grows (defines_class line (class_view class.now)) buffer.old buffer.new) }
{
    push_members(buffer, names, class.id, class.members.as_slice())?;
    buffer.push(Op::Class(class.id), line)?;
    buffer.push(Op::StoreName(class.name), line)
}

fn push_members(
    buffer: &mut Buffer,
    names: &Names<'_>,
    class: ClassId,
    members: &[Member],
) -> Result<(), AllocError>
    ensures { OnOk result (Grows (member_values class (members_view members.now)) buffer.old buffer.new) }
{
    for member in members {
        push_member(buffer, names, class, member)?;
    }
    Ok(())
}

// A member's value.
fn push_member(
    buffer: &mut Buffer,
    names: &Names<'_>,
    class: ClassId,
    member: &Member,
) -> Result<(), AllocError>
    ensures { OnOk result (Grows (member_value class (member_view member.now)) buffer.old buffer.new) }
{
    match member {
        Member::Value(name, value, own) => push_stored(buffer, names, class, *name, value, *own),
        Member::Annotated(name, value, own) => {
            push_declared(buffer, names, class, *name, value, *own)
        }
        Member::Pass | Member::Ellipsis | Member::Text | Member::Method(_) => Ok(()),
    }
}

// A member with an annotation, which may have no value.
fn push_declared(
    buffer: &mut Buffer,
    names: &Names<'_>,
    class: ClassId,
    name: NameId,
    value: &Option<Expr>,
    line: LineNo,
) -> Result<(), AllocError>
    ensures { OnOk result (Grows (member_value class (declared name (option_map expr_view value.now) line)) buffer.old buffer.new) }
{
    match value {
        Some(value) => push_stored(buffer, names, class, name, value, line),
        None => Ok(()),
    }
}

// A value in the module's names, which goes into a member.
fn push_stored(
    buffer: &mut Buffer,
    names: &Names<'_>,
    class: ClassId,
    name: NameId,
    value: &Expr,
    line: LineNo,
) -> Result<(), AllocError>
    ensures { OnOk result (Grows (spec_value [] (expr_view value.now) ⨾ one (op.StoreMember class name) line) buffer.old buffer.new) }
{
    let body = names.outside();
    push_value(buffer, &body, value)?;
    buffer.push(Op::StoreMember(class, name), line)
}

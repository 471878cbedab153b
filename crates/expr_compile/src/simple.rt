//! The code of simple statements.
ghost use Rattle.std.specs.Prelude.{◌≡◌, ◌++◌, ◌∷◌, [], OnOk, map, option_map, None};
ghost use Rattle.py_tree.specs.Tree.{site_of};
ghost use Rattle.py_tree.specs.View.{expr_view, exprs_view, import_view, from_view};
ghost use Rattle.stack_code.specs.declared.op.Op.TheVariants as op;
ghost use Rattle.tree_code.specs.Pieces.{one, ◌⨾◌, over};
ghost use Rattle.tree_code.specs.Expressions.{value as spec_value, put};
ghost use Rattle.tree_code.specs.Names.{load, store};
ghost use Rattle.tree_code.specs.Statements.{value_or_none, dropped, raised as spec_raised, imports, froms, put_all, augmented, annotates, first_of, bound_by as spec_bound_by};
ghost use Rattle.expr_compile.specs.Growth.{Grows};

use crate::buffer::Buffer;
use crate::names::Names;
use crate::targets::push_put;
use crate::values::push_value;
use place_ids::{BinOp, Id, LineNo, NameId, SiteId};
use py_tree::{Expr, ExprKind, FromPart, ImportPart};
use sqlite_items::Items;
use stack_code::{ConstKind, Op};
use std::alloc::AllocError;

/// `return`, with the value or else None.
#[tactic(auto, using(crate::proofs::Sizes::growing))]
pub fn push_return(
    buffer: &mut Buffer,
    names: &Names<'_>,
    value: &Option<Expr>,
    line: LineNo,
) -> Result<(), AllocError>
    ensures { OnOk result (Grows (value_or_none names.now line (option_map expr_view value.now) ⨾ one op.Return line) buffer.old buffer.new) }
{
    push_value_or_none(buffer, names, value, line)?;
    buffer.push(Op::Return, line)?;
    Ok(())
}

#[tactic(auto, using(crate::proofs::Sizes::growing))]
fn push_value_or_none(
    buffer: &mut Buffer,
    names: &Names<'_>,
    value: &Option<Expr>,
    line: LineNo,
) -> Result<(), AllocError>
    ensures { OnOk result (Grows (value_or_none names.now line (option_map expr_view value.now)) buffer.old buffer.new) }
{
    match value {
        Some(value) => push_value(buffer, names, value),
        None => buffer.push(Op::Const(ConstKind::NoneValue), line),
    }
}

// A value that is not used, where there is one.
#[tactic(auto, using(crate::proofs::Sizes::growing))]
fn push_dropped(
    buffer: &mut Buffer,
    names: &Names<'_>,
    value: &Option<Expr>,
    line: LineNo,
) -> Result<(), AllocError>
    ensures { OnOk result (Grows (dropped names.now line (option_map expr_view value.now)) buffer.old buffer.new) }
{
    match value {
        Some(value) => push_expression(buffer, names, value, line),
        None => Ok(()),
    }
}

/// An expression whose value is not used.
#[tactic(auto, using(crate::proofs::Sizes::growing))]
pub fn push_expression(
    buffer: &mut Buffer,
    names: &Names<'_>,
    value: &Expr,
    line: LineNo,
) -> Result<(), AllocError>
    ensures { OnOk result (Grows (spec_value names.now (expr_view value.now) ⨾ one op.Pop line) buffer.old buffer.new) }
{
    push_value(buffer, names, value)?;
    buffer.push(Op::Pop, line)?;
    Ok(())
}

/// `raise`, where the cause is evaluated and dropped. Alone it raises the exception under way again.
#[tactic(auto, using(crate::proofs::Sizes::growing))]
pub fn push_raise(
    buffer: &mut Buffer,
    names: &Names<'_>,
    raised: &Option<Expr>,
    cause: &Option<Expr>,
    line: LineNo,
) -> Result<(), AllocError>
    ensures { OnOk result (Grows (spec_raised names.now line (option_map expr_view raised.now) (option_map expr_view cause.now)) buffer.old buffer.new) }
{
    match raised {
        None => buffer.push(Op::Reraise, line),
        Some(raised) => push_raised(buffer, names, raised, cause, line),
    }
}

#[tactic(auto, using(crate::proofs::Sizes::growing))]
fn push_raised(
    buffer: &mut Buffer,
    names: &Names<'_>,
    raised: &Expr,
    cause: &Option<Expr>,
    line: LineNo,
) -> Result<(), AllocError>
    ensures { OnOk result (Grows (spec_value names.now (expr_view raised.now) ⨾ dropped names.now line (option_map expr_view cause.now) ⨾ one (op.MakeRaised (site_of (expr_view raised.now))) line ⨾ one op.Raise line) buffer.old buffer.new) }
{
    push_value(buffer, names, raised)?;
    push_dropped(buffer, names, cause, line)?;
    push_making(buffer, raised.site, line)?;
    Ok(())
}

// The value on the top is raised.
#[tactic(auto, using(crate::proofs::Sizes::growing))]
fn push_making(buffer: &mut Buffer, site: SiteId, line: LineNo) -> Result<(), AllocError>
    ensures { OnOk result (Grows (one (op.MakeRaised site) line ⨾ one op.Raise line) buffer.old buffer.new) }
{
    buffer.push(Op::MakeRaised(site), line)?;
    buffer.push(Op::Raise, line)?;
    Ok(())
}

/// `assert`, which raises an AssertionError where the test is false. The message is evaluated only there.
pub fn push_assert(
    buffer: &mut Buffer,
    names: &Names<'_>,
    error: NameId,
    test: &Expr,
    message: &Option<Expr>,
    line: LineNo,
) -> Result<(), AllocError>
    ensures { OnOk result (Grows (spec_value names.now (expr_view test.now) ⨾ over op.JumpIfTrue line (dropped names.now line (option_map expr_view message.now) ⨾ one (op.LoadName error) line ⨾ one (op.MakeRaised (site_of (expr_view test.now))) line ⨾ one op.Raise line)) buffer.old buffer.new) }
{
    push_value(buffer, names, test)?;
    let jump = buffer.push_open(Op::JumpIfTrue(0), line)?;
    push_failure(buffer, names, error, test.site, message, line)?;
    let end = buffer.place();
    buffer.aim(jump, Op::JumpIfTrue(end), line);
    Ok(())
}

// What an `assert` does whose test is false.
#[tactic(auto, using(crate::proofs::Sizes::growing))]
fn push_failure(
    buffer: &mut Buffer,
    names: &Names<'_>,
    error: NameId,
    site: SiteId,
    message: &Option<Expr>,
    line: LineNo,
) -> Result<(), AllocError>
    ensures { OnOk result (Grows (dropped names.now line (option_map expr_view message.now) ⨾ one (op.LoadName error) line ⨾ one (op.MakeRaised site) line ⨾ one op.Raise line) buffer.old buffer.new) }
{
    push_dropped(buffer, names, message, line)?;
    buffer.push(Op::LoadName(error), line)?;
    push_making(buffer, site, line)?;
    Ok(())
}

// The name that an import binds: after `as`, or else the first of its path.
fn bound_by(part: &ImportPart) -> NameId
    ensures { result ≡ spec_bound_by part.now.alias (first_of part.now.path.items) }
{
    match part.alias {
        Some(alias) => alias,
        None => first_name(part.path.as_slice()),
    }
}

fn first_name(path: &[NameId]) -> NameId
    ensures { result ≡ first_of path.now }
{
    match path {
        [first, ..] => *first,
        [] => NameId::new(0),
    }
}

/// `import`, with each part's module and the name that it gets.
#[tactic(auto, using(crate::proofs::Sizes::growing))]
pub fn push_imports(
    buffer: &mut Buffer,
    names: &Names<'_>,
    parts: &[ImportPart],
    line: LineNo,
) -> Result<(), AllocError>
    ensures { OnOk result (Grows (imports names.now line (map import_view parts.now)) buffer.old buffer.new) }
{
    for part in parts {
        push_import(buffer, names, part, line)?;
    }
    Ok(())
}

#[tactic(auto, using(crate::proofs::Sizes::growing))]
fn push_import(
    buffer: &mut Buffer,
    names: &Names<'_>,
    part: &ImportPart,
    line: LineNo,
) -> Result<(), AllocError>
    ensures { OnOk result (Grows (one (op.Import part.now.path.items) line ⨾ one (store names.now (spec_bound_by part.now.alias (first_of part.now.path.items))) line) buffer.old buffer.new) }
{
    let path = Items::from_slice(buffer.alloc(), part.path.as_slice())?;
    buffer.push(Op::Import(path), line)?;
    buffer.push(names.store(bound_by(part)), line)?;
    Ok(())
}

/// `from`, with the module's path, and each name that is taken and the name that it gets.
#[tactic(auto, using(crate::proofs::Sizes::growing))]
pub fn push_froms(
    buffer: &mut Buffer,
    names: &Names<'_>,
    path: &[NameId],
    parts: &[FromPart],
    line: LineNo,
) -> Result<(), AllocError>
    ensures { OnOk result (Grows (froms names.now line path.now (map from_view parts.now)) buffer.old buffer.new) }
{
    for part in parts {
        push_from(buffer, names, path, part, line)?;
    }
    Ok(())
}

#[tactic(auto, using(crate::proofs::Sizes::growing))]
fn push_from(
    buffer: &mut Buffer,
    names: &Names<'_>,
    path: &[NameId],
    part: &FromPart,
    line: LineNo,
) -> Result<(), AllocError>
    ensures { OnOk result (Grows (one (op.ImportFrom path.now part.now.name) line ⨾ one (store names.now (spec_bound_by part.now.alias part.now.name)) line) buffer.old buffer.new) }
{
    let path = Items::from_slice(buffer.alloc(), path)?;
    buffer.push(Op::ImportFrom(path, part.name), line)?;
    buffer.push(names.store(taken_as(part)), line)?;
    Ok(())
}

// The name that a part of `from` binds: after `as`, or else its own.
fn taken_as(part: &FromPart) -> NameId
    ensures { result ≡ spec_bound_by part.now.alias part.now.name }
{
    match part.alias {
        Some(alias) => alias,
        None => part.name,
    }
}

/// The value goes into each target from the left, of which all but the last get a copy.
#[tactic(auto, using(crate::proofs::Sizes::growing))]
pub fn push_assign(
    buffer: &mut Buffer,
    names: &Names<'_>,
    targets: &[Expr],
    value: &Expr,
    line: LineNo,
) -> Result<(), AllocError>
    ensures { OnOk result (Grows (spec_value names.now (expr_view value.now) ⨾ put_all names.now line (exprs_view targets.now)) buffer.old buffer.new) }
{
    push_value(buffer, names, value)?;
    push_put_all(buffer, names, targets, line)?;
    Ok(())
}

// The value on the top goes into each target.
#[tactic(auto, using(crate::proofs::Sizes::growing))]
fn push_put_all(
    buffer: &mut Buffer,
    names: &Names<'_>,
    targets: &[Expr],
    line: LineNo,
) -> Result<(), AllocError>
    ensures { OnOk result (Grows (put_all names.now line (exprs_view targets.now)) buffer.old buffer.new) }
{
    match targets.split_last() {
        None => buffer.push(Op::Pop, line),
        Some((last, others)) => push_copies(buffer, names, others, last, line),
    }
}

// Copies of the value on the top go into the targets before the last, and then the value goes there.
fn push_copies(
    buffer: &mut Buffer,
    names: &Names<'_>,
    others: &[Expr],
    last: &Expr,
    line: LineNo,
) -> Result<(), AllocError>
    ensures { OnOk result (Grows (put_all names.now line (exprs_view (others.now ++ last.now ∷ []))) buffer.old buffer.new) }
{
    for target in others {
        buffer.push(Op::Pick(0), line)?;
        push_put(buffer, names, target)?;
    }
    push_put(buffer, names, last)?;
    Ok(())
}

/// `target op= value`, where the target's parts are evaluated once. What is no target has no code.
#[tactic(auto, using(crate::proofs::Sizes::growing))]
pub fn push_augment(
    buffer: &mut Buffer,
    names: &Names<'_>,
    target: &Expr,
    op: BinOp,
    value: &Expr,
    line: LineNo,
) -> Result<(), AllocError>
    ensures { OnOk result (Grows (augmented names.now line (expr_view target.now) op (expr_view value.now)) buffer.old buffer.new) }
{
    let at = target.line;
    let change = Op::InPlace(op, target.site);
    match &target.kind {
        ExprKind::Name(name) => augment_name(buffer, names, *name, at, value, change, line),
        ExprKind::Attr(object, name) => {
            augment_attr(buffer, names, object, *name, at, value, change, line)
        }
        ExprKind::Item(container, index) => {
            augment_item(buffer, names, container, index, at, value, change, line)
        }
        ExprKind::Literal(_)
        | ExprKind::Unary(_, _)
        | ExprKind::Binary(_, _, _)
        | ExprKind::Compare(_, _, _)
        | ExprKind::Not(_)
        | ExprKind::And(_, _)
        | ExprKind::Or(_, _)
        | ExprKind::Choice(_, _, _)
        | ExprKind::Super(_)
        | ExprKind::Slice(_, _, _, _)
        | ExprKind::Call(_, _)
        | ExprKind::Tuple(_)
        | ExprKind::List(_)
        | ExprKind::Dict(_) => Ok(()),
    }
}

fn augment_name(
    buffer: &mut Buffer,
    names: &Names<'_>,
    name: NameId,
    at: LineNo,
    value: &Expr,
    change: Op,
    line: LineNo,
) -> Result<(), AllocError>
    ensures { OnOk result (Grows (one (load names.now name) at ⨾ spec_value names.now (expr_view value.now) ⨾ one change line ⨾ one (store names.now name) at) buffer.old buffer.new) }
{
    buffer.push(names.load(name), at)?;
    push_value(buffer, names, value)?;
    buffer.push(change, line)?;
    buffer.push(names.store(name), at)?;
    Ok(())
}

fn augment_attr(
    buffer: &mut Buffer,
    names: &Names<'_>,
    object: &Expr,
    name: NameId,
    at: LineNo,
    value: &Expr,
    change: Op,
    line: LineNo,
) -> Result<(), AllocError>
    ensures { OnOk result (Grows (spec_value names.now (expr_view object.now) ⨾ one (op.Pick 0) at ⨾ one (op.Attr name) at ⨾ spec_value names.now (expr_view value.now) ⨾ one change line ⨾ one (op.StoreAttr name) at) buffer.old buffer.new) }
{
    push_value(buffer, names, object)?;
    buffer.push(Op::Pick(0), at)?;
    buffer.push(Op::Attr(name), at)?;
    push_value(buffer, names, value)?;
    buffer.push(change, line)?;
    buffer.push(Op::StoreAttr(name), at)?;
    Ok(())
}

fn augment_item(
    buffer: &mut Buffer,
    names: &Names<'_>,
    container: &Expr,
    index: &Expr,
    at: LineNo,
    value: &Expr,
    change: Op,
    line: LineNo,
) -> Result<(), AllocError>
    ensures { OnOk result (Grows (spec_value names.now (expr_view container.now) ⨾ spec_value names.now (expr_view index.now) ⨾ one (op.Pick 1) at ⨾ one (op.Pick 1) at ⨾ one op.Item at ⨾ spec_value names.now (expr_view value.now) ⨾ one change line ⨾ one op.StoreItem at) buffer.old buffer.new) }
{
    push_value(buffer, names, container)?;
    push_value(buffer, names, index)?;
    buffer.push(Op::Pick(1), at)?;
    buffer.push(Op::Pick(1), at)?;
    buffer.push(Op::Item, at)?;
    push_value(buffer, names, value)?;
    buffer.push(change, line)?;
    buffer.push(Op::StoreItem, at)?;
    Ok(())
}

/// Without a value only an attribute's object is evaluated.
#[tactic(auto, using(crate::proofs::Sizes::growing))]
pub fn push_annotated(
    buffer: &mut Buffer,
    names: &Names<'_>,
    target: &Expr,
    value: &Option<Expr>,
    line: LineNo,
) -> Result<(), AllocError>
    ensures { OnOk result (Grows (annotates names.now line (expr_view target.now) (option_map expr_view value.now)) buffer.old buffer.new) }
{
    match value {
        Some(value) => push_declared(buffer, names, target, value),
        None => push_declaration(buffer, names, target, line),
    }
}

#[tactic(auto, using(crate::proofs::Sizes::growing))]
fn push_declared(
    buffer: &mut Buffer,
    names: &Names<'_>,
    target: &Expr,
    value: &Expr,
) -> Result<(), AllocError>
    ensures { OnOk result (Grows (spec_value names.now (expr_view value.now) ⨾ put names.now (expr_view target.now)) buffer.old buffer.new) }
{
    push_value(buffer, names, value)?;
    push_put(buffer, names, target)?;
    Ok(())
}

#[tactic(auto, using(crate::proofs::Sizes::growing))]
fn push_declaration(
    buffer: &mut Buffer,
    names: &Names<'_>,
    target: &Expr,
    line: LineNo,
) -> Result<(), AllocError>
    ensures { OnOk result (Grows (annotates names.now line (expr_view target.now) None) buffer.old buffer.new) }
{
    match &target.kind {
        ExprKind::Attr(object, _) => push_expression(buffer, names, object, line),
        ExprKind::Name(_)
        | ExprKind::Literal(_)
        | ExprKind::Unary(_, _)
        | ExprKind::Binary(_, _, _)
        | ExprKind::Compare(_, _, _)
        | ExprKind::Not(_)
        | ExprKind::And(_, _)
        | ExprKind::Or(_, _)
        | ExprKind::Choice(_, _, _)
        | ExprKind::Super(_)
        | ExprKind::Item(_, _)
        | ExprKind::Slice(_, _, _, _)
        | ExprKind::Call(_, _)
        | ExprKind::Tuple(_)
        | ExprKind::List(_)
        | ExprKind::Dict(_) => Ok(()),
    }
}

//! The code of expressions, which pushes their value.
ghost use Rattle.std.specs.Prelude.{◌≡◌, ◌++◌, ◌∷◌, [], OnOk, IfOk, MatchOption};
ghost use Rattle.py_tree.specs.View.{expr_view, exprs_view, args_view, bound_view, pairs_view};
ghost use Rattle.stack_code.specs.declared.op.Op.TheVariants as op;
ghost use Rattle.tree_code.specs.Pieces.{one, ◌⨾◌, over, fork};
ghost use Rattle.tree_code.specs.Expressions.{value, values, bound_value, arguments, pairs as spec_pairs, count, pair_count, positionals, keywords as spec_keywords};
ghost use Rattle.expr_compile.specs.Growth.{Grows, keeping};

use crate::buffer::Buffer;
use crate::names::{Names, kind_of};
use place_ids::{LineNo, NameId, SiteId};
use py_tree::{Arg, Expr, ExprKind, Pair};
use sqlite_items::Items;
use stack_code::{ConstKind, Op};
use std::alloc::{AllocError, Global};

/// So many parts, where their number fits. More are taken for want of memory.
pub fn counted(len: usize) -> Result<u32, AllocError>
    ensures { IfOk result (λ count. count ≡ len) }
{
    if len > u32::MAX as usize {
        return Err(AllocError);
    }
    Ok(len as u32)
}

/// Puts the code of an expression at the end.
#[cycle(values)]
#[tactic(auto, using(crate::proofs::Sizes::growing, py_tree::proofs::Slices::view_slice))]
pub fn push_value(buffer: &mut Buffer, names: &Names<'_>, expr: &Expr) -> Result<(), AllocError>
    ensures { OnOk result (Grows (value names.now (expr_view expr.now)) buffer.old buffer.new) }
{
    let line = expr.line;
    match &expr.kind {
        ExprKind::Name(name) => buffer.push(names.load(*name), line),
        ExprKind::Literal(literal) => buffer.push(Op::Const(kind_of(*literal)), line),
        ExprKind::Super(name) => buffer.push(Op::Super(*name), line),
        ExprKind::Unary(op, a) => push_one(buffer, names, a, Op::Unary(*op), line),
        ExprKind::Not(a) => push_one(buffer, names, a, Op::Not, line),
        ExprKind::Attr(a, name) => push_one(buffer, names, a, Op::Attr(*name), line),
        ExprKind::Binary(op, a, b) => {
            push_two(buffer, names, a, b, Op::Binary(*op, expr.site), line)
        }
        ExprKind::Compare(op, a, b) => push_two(buffer, names, a, b, Op::Compare(*op), line),
        ExprKind::Item(a, b) => push_two(buffer, names, a, b, Op::Item, line),
        ExprKind::And(a, b) => push_short(buffer, names, a, b, true, line),
        ExprKind::Or(a, b) => push_short(buffer, names, a, b, false, line),
        ExprKind::Choice(a, test, b) => push_choice(buffer, names, test, a, b, line),
        ExprKind::Slice(a, b, c, d) => push_slice(buffer, names, a, b, c, d, expr.site, line),
        ExprKind::Call(fun, args) => {
            push_call(buffer, names, fun, args.as_slice(), expr.site, line)
        }
        ExprKind::Tuple(parts) => {
            let op = tuple_of(parts.as_slice(), expr.site)?;
            push_series(buffer, names, parts.as_slice(), op, line)
        }
        ExprKind::List(parts) => {
            let op = list_of(parts.as_slice(), expr.site)?;
            push_series(buffer, names, parts.as_slice(), op, line)
        }
        ExprKind::Dict(pairs) => {
            let op = dict_of(pairs.as_slice(), expr.site)?;
            push_dict(buffer, names, pairs.as_slice(), op, line)
        }
    }
}

#[tactic(auto, using(crate::proofs::Sizes::count_view))]
fn tuple_of(parts: &[Expr], site: SiteId) -> Result<Op, AllocError>
    ensures { IfOk result (λ o. o ≡ op.NewTuple (count (exprs_view parts.now)) site) }
{
    Ok(Op::NewTuple(counted(parts.len())?, site))
}

#[tactic(auto, using(crate::proofs::Sizes::count_view))]
fn list_of(parts: &[Expr], site: SiteId) -> Result<Op, AllocError>
    ensures { IfOk result (λ o. o ≡ op.NewList (count (exprs_view parts.now)) site) }
{
    Ok(Op::NewList(counted(parts.len())?, site))
}

#[tactic(auto, using(crate::proofs::Sizes::pair_count_view))]
fn dict_of(pairs: &[Pair], site: SiteId) -> Result<Op, AllocError>
    ensures { IfOk result (λ o. o ≡ op.NewDict (pair_count (pairs_view pairs.now)) site) }
{
    Ok(Op::NewDict(counted(pairs.len())?, site))
}

// One operand, and then the instruction that takes it.
#[cycle(values)]
fn push_one(
    buffer: &mut Buffer,
    names: &Names<'_>,
    operand: &Expr,
    op: Op,
    line: LineNo,
) -> Result<(), AllocError>
    ensures { OnOk result (Grows (value names.now (expr_view operand.now) ⨾ one op line) buffer.old buffer.new) }
{
    push_value(buffer, names, operand)?;
    buffer.push(op, line)?;
    Ok(())
}

// Two operands from the left, and then the instruction that takes them.
#[cycle(values)]
fn push_two(
    buffer: &mut Buffer,
    names: &Names<'_>,
    left: &Expr,
    right: &Expr,
    op: Op,
    line: LineNo,
) -> Result<(), AllocError>
    ensures { OnOk result (Grows (value names.now (expr_view left.now) ⨾ value names.now (expr_view right.now) ⨾ one op line) buffer.old buffer.new) }
{
    push_value(buffer, names, left)?;
    push_value(buffer, names, right)?;
    buffer.push(op, line)?;
    Ok(())
}

// `left and right`, or `left or right`.
#[cycle(values)]
fn push_short(
    buffer: &mut Buffer,
    names: &Names<'_>,
    left: &Expr,
    right: &Expr,
    both: bool,
    line: LineNo,
) -> Result<(), AllocError>
    ensures { OnOk result (Grows (value names.now (expr_view left.now) ⨾ over (keeping both) line (value names.now (expr_view right.now))) buffer.old buffer.new) }
{
    push_value(buffer, names, left)?;
    let jump = buffer.push_open(keeping_jump(both, 0), line)?;
    push_value(buffer, names, right)?;
    let end = buffer.place();
    buffer.aim(jump, keeping_jump(both, end), line);
    Ok(())
}

fn keeping_jump(both: bool, goal: u32) -> Op
    ensures { result ≡ keeping both goal }
{
    if both {
        Op::JumpIfFalseKeep(goal)
    } else {
        Op::JumpIfTrueKeep(goal)
    }
}

// `then if test else other`
#[cycle(values)]
fn push_choice(
    buffer: &mut Buffer,
    names: &Names<'_>,
    test: &Expr,
    then: &Expr,
    other: &Expr,
    line: LineNo,
) -> Result<(), AllocError>
    ensures { OnOk result (Grows (value names.now (expr_view test.now) ⨾ fork line (value names.now (expr_view then.now)) (value names.now (expr_view other.now))) buffer.old buffer.new) }
{
    push_value(buffer, names, test)?;
    let jump = buffer.push_open(Op::JumpIfFalse(0), line)?;
    push_value(buffer, names, then)?;
    let leave = buffer.push_open(Op::Jump(0), line)?;
    let middle = buffer.place();
    buffer.aim(jump, Op::JumpIfFalse(middle), line);
    push_value(buffer, names, other)?;
    let end = buffer.place();
    buffer.aim(leave, Op::Jump(end), line);
    Ok(())
}

// What is sliced, and then the bounds and the step.
#[cycle(values)]
fn push_slice(
    buffer: &mut Buffer,
    names: &Names<'_>,
    sliced: &Expr,
    from: &Option<Box<Expr>>,
    to: &Option<Box<Expr>>,
    step: &Option<Box<Expr>>,
    site: SiteId,
    line: LineNo,
) -> Result<(), AllocError>
    ensures { OnOk result (Grows (value names.now (expr_view sliced.now) ⨾ bound_value names.now line (bound_view from.now) ⨾ bound_value names.now line (bound_view to.now) ⨾ bound_value names.now line (bound_view step.now) ⨾ one (op.Slice site) line) buffer.old buffer.new) }
{
    push_value(buffer, names, sliced)?;
    push_bound(buffer, names, from, line)?;
    push_bound(buffer, names, to, line)?;
    push_bound(buffer, names, step, line)?;
    buffer.push(Op::Slice(site), line)?;
    Ok(())
}

// A part of a slice, which is None where it is not written.
#[cycle(values)]
#[tactic(auto, using(crate::proofs::Sizes::growing))]
fn push_bound(
    buffer: &mut Buffer,
    names: &Names<'_>,
    bound: &Option<Box<Expr>>,
    line: LineNo,
) -> Result<(), AllocError>
    ensures { OnOk result (Grows (bound_value names.now line (bound_view bound.now)) buffer.old buffer.new) }
{
    match bound {
        Some(value) => push_value(buffer, names, value),
        None => buffer.push(Op::Const(ConstKind::NoneValue), line),
    }
}

// The callee, the arguments in order, and the call.
#[cycle(values)]
fn push_call(
    buffer: &mut Buffer,
    names: &Names<'_>,
    fun: &Expr,
    args: &[Arg],
    site: SiteId,
    line: LineNo,
) -> Result<(), AllocError>
    ensures { OnOk result (Grows (value names.now (expr_view fun.now) ⨾ arguments names.now (args_view args.now) ⨾ one (op.Call (positionals (args_view args.now)) (spec_keywords (args_view args.now)) site) line) buffer.old buffer.new) }
{
    push_value(buffer, names, fun)?;
    push_arguments(buffer, names, args)?;
    let op = call_of(buffer.alloc(), args, site)?;
    buffer.push(op, line)?;
    Ok(())
}

#[tactic(auto, using(crate::proofs::Sizes::args_count_view, crate::proofs::Sizes::keywords_within))]
fn call_of(alloc: Global, args: &[Arg], site: SiteId) -> Result<Op, AllocError>
    ensures { IfOk result (λ o. o ≡ op.Call (positionals (args_view args.now)) (spec_keywords (args_view args.now)) site) }
{
    let keywords = keywords_of(alloc, args)?;
    let positionals = counted(args.len() - keywords.len())?;
    Ok(Op::Call(positionals, keywords, site))
}

fn push_keyword(keywords: &mut Items<NameId>, name: Option<NameId>) -> Result<(), AllocError>
    ensures { OnOk result (MatchOption name (keywords.new ≡ keywords.old) (λ n. keywords.new ≡ keywords.old ++ n ∷ [])) }
{
    match name {
        Some(name) => keywords.push(name),
        None => Ok(()),
    }
}

#[cycle(values)]
fn push_arguments(buffer: &mut Buffer, names: &Names<'_>, args: &[Arg]) -> Result<(), AllocError>
    ensures { OnOk result (Grows (arguments names.now (args_view args.now)) buffer.old buffer.new) }
{
    for arg in args {
        push_value(buffer, names, &arg.value)?;
    }
    Ok(())
}

// The keywords of arguments, in order.
#[tactic(auto, using(std::proofs::Common::append_assoc))]
fn keywords_of(alloc: Global, args: &[Arg]) -> Result<Items<NameId>, AllocError>
    ensures { IfOk result (λ keywords. keywords ≡ spec_keywords (args_view args.now)) }
{
    let mut keywords: Items<NameId> = Items::new(alloc);
    for arg in args {
        push_keyword(&mut keywords, arg.name)?;
    }
    Ok(keywords)
}

// Values from the left, and then the instruction that takes them.
#[cycle(values)]
fn push_series(
    buffer: &mut Buffer,
    names: &Names<'_>,
    exprs: &[Expr],
    op: Op,
    line: LineNo,
) -> Result<(), AllocError>
    ensures { OnOk result (Grows (values names.now (exprs_view exprs.now) ⨾ one op line) buffer.old buffer.new) }
{
    push_values(buffer, names, exprs)?;
    buffer.push(op, line)?;
    Ok(())
}

#[cycle(values)]
fn push_values(buffer: &mut Buffer, names: &Names<'_>, exprs: &[Expr]) -> Result<(), AllocError>
    ensures { OnOk result (Grows (values names.now (exprs_view exprs.now)) buffer.old buffer.new) }
{
    for expr in exprs {
        push_value(buffer, names, expr)?;
    }
    Ok(())
}

// The pairs, and then the instruction that takes them.
#[cycle(values)]
fn push_dict(
    buffer: &mut Buffer,
    names: &Names<'_>,
    pairs: &[Pair],
    op: Op,
    line: LineNo,
) -> Result<(), AllocError>
    ensures { OnOk result (Grows (spec_pairs names.now (pairs_view pairs.now) ⨾ one op line) buffer.old buffer.new) }
{
    push_pairs(buffer, names, pairs)?;
    buffer.push(op, line)?;
    Ok(())
}

// Each key and then its value.
#[cycle(values)]
fn push_pairs(buffer: &mut Buffer, names: &Names<'_>, pairs: &[Pair]) -> Result<(), AllocError>
    ensures { OnOk result (Grows (spec_pairs names.now (pairs_view pairs.now)) buffer.old buffer.new) }
{
    for pair in pairs {
        push_value(buffer, names, &pair.key)?;
        push_value(buffer, names, &pair.value)?;
    }
    Ok(())
}

//! The lines of expressions whose form isn't built.
ghost use Rattle.std.specs.Prelude.{◌≡◌, ◌++◌, OnOk, option_map};
ghost use Rattle.py_tree.specs.View.{expr_view, expr_kind_view, exprs_view, args_view, bound_view, pairs_view};
ghost use Rattle.built_forms.specs.Unbuilt.{in_expr, in_parts, in_exprs, in_bound, in_args, in_pairs, in_option};

use crate::forms::is_built_expr;
use crate::known::Known;
use crate::lines::put_unless;
use place_ids::{LineNo, Sequence};
use py_tree::{Arg, Expr, ExprKind, Pair};
use std::alloc::AllocError;

/// Puts the lines of an expression and its parts at the end.
#[cycle(expressions)]
#[tactic(auto, using(std::proofs::Common::append_assoc))]
pub(crate) fn expression(
    known: &Known,
    expr: &Expr,
    out: &mut Sequence<LineNo>,
) -> Result<(), AllocError>
    ensures { OnOk result (out.new ≡ out.old ++ in_expr known.now (expr_view expr.now)) }
{
    put_unless(is_built_expr(known, &expr.kind), expr.line, out)?;
    parts(known, &expr.kind, out)?;
    Ok(())
}

/// The same of the parts alone.
#[cycle(expressions)]
#[tactic(auto, using(std::proofs::Common::append_assoc))]
pub(crate) fn parts(
    known: &Known,
    kind: &ExprKind,
    out: &mut Sequence<LineNo>,
) -> Result<(), AllocError>
    ensures { OnOk result (out.new ≡ out.old ++ in_parts known.now (expr_kind_view kind.now)) }
{
    match kind {
        ExprKind::Name(_) | ExprKind::Literal(_) | ExprKind::Super(_) => Ok(()),
        ExprKind::Unary(_, a) | ExprKind::Not(a) | ExprKind::Attr(a, _) => {
            expression(known, a, out)
        }
        ExprKind::Binary(_, a, b) | ExprKind::Compare(_, a, b) => {
            expression(known, a, out)?;
            expression(known, b, out)?;
            Ok(())
        }
        ExprKind::And(a, b) | ExprKind::Or(a, b) => {
            expression(known, a, out)?;
            expression(known, b, out)?;
            Ok(())
        }
        ExprKind::Item(a, b) => {
            expression(known, a, out)?;
            expression(known, b, out)?;
            Ok(())
        }
        ExprKind::Choice(a, b, c) => {
            expression(known, a, out)?;
            expression(known, b, out)?;
            expression(known, c, out)?;
            Ok(())
        }
        ExprKind::Slice(a, b, c, d) => {
            expression(known, a, out)?;
            bound(known, b, out)?;
            bound(known, c, out)?;
            bound(known, d, out)?;
            Ok(())
        }
        ExprKind::Call(a, xs) => {
            expression(known, a, out)?;
            arguments(known, xs, out)?;
            Ok(())
        }
        ExprKind::Tuple(xs) | ExprKind::List(xs) => elements(known, xs, out),
        ExprKind::Dict(xs) => pairs(known, xs, out),
    }
}

#[cycle(expressions)]
#[tactic(auto, using(std::proofs::Common::append_assoc))]
fn elements(known: &Known, exprs: &[Expr], out: &mut Sequence<LineNo>) -> Result<(), AllocError>
    ensures { OnOk result (out.new ≡ out.old ++ in_exprs known.now (exprs_view exprs.now)) }
{
    for expr in exprs {
        expression(known, expr, out)?;
    }
    Ok(())
}

#[cycle(expressions)]
#[tactic(auto, using(std::proofs::Common::append_assoc))]
fn bound(
    known: &Known,
    bound: &Option<Box<Expr>>,
    out: &mut Sequence<LineNo>,
) -> Result<(), AllocError>
    ensures { OnOk result (out.new ≡ out.old ++ in_bound known.now (bound_view bound.now)) }
{
    match bound {
        Some(expr) => expression(known, expr, out),
        None => Ok(()),
    }
}

#[cycle(expressions)]
#[tactic(auto, using(std::proofs::Common::append_assoc))]
fn arguments(known: &Known, args: &[Arg], out: &mut Sequence<LineNo>) -> Result<(), AllocError>
    ensures { OnOk result (out.new ≡ out.old ++ in_args known.now (args_view args.now)) }
{
    for arg in args {
        expression(known, &arg.value, out)?;
    }
    Ok(())
}

#[cycle(expressions)]
#[tactic(auto, using(std::proofs::Common::append_assoc))]
fn pairs(known: &Known, pairs: &[Pair], out: &mut Sequence<LineNo>) -> Result<(), AllocError>
    ensures { OnOk result (out.new ≡ out.old ++ in_pairs known.now (pairs_view pairs.now)) }
{
    for pair in pairs {
        expression(known, &pair.key, out)?;
        expression(known, &pair.value, out)?;
    }
    Ok(())
}

/// The same of an expression that there may be.
pub(crate) fn option(
    known: &Known,
    found: &Option<Expr>,
    out: &mut Sequence<LineNo>,
) -> Result<(), AllocError>
    ensures { OnOk result (out.new ≡ out.old ++ in_option known.now (option_map expr_view found.now)) }
{
    match found {
        Some(expr) => expression(known, expr, out),
        None => Ok(()),
    }
}

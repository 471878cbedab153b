//! The names that stand in expressions.
ghost use Rattle.std.specs.Prelude.{◌≡◌, ◌++◌, OnOk, option_map};
ghost use Rattle.py_tree.specs.View.{expr_view, exprs_view, args_view, bound_view, pairs_view};
ghost use Rattle.scope_rules.specs.Mentions.{mentions, mentions_of_all, mentions_in, mentions_of_args, mentions_of_pairs, mentions_of_option};

use crate::mention::at;
use place_ids::Sequence;
use py_tree::{Arg, Expr, ExprKind, Pair};
use scope_rules::{Mention, Role};
use std::alloc::AllocError;

/// Puts what an expression says of names at the end.
#[cycle(mention)]
#[tactic(auto, using(std::proofs::Common::append_assoc))]
pub(crate) fn mention(expr: &Expr, out: &mut Sequence<Mention>) -> Result<(), AllocError>
    ensures { OnOk result (out.new ≡ out.old ++ mentions (expr_view expr.now)) }
{
    match &expr.kind {
        ExprKind::Literal(_) => Ok(()),
        ExprKind::Name(name) => out.push(at(Role::Name, *name, expr.line)),
        ExprKind::Super(name) => out.push(at(Role::Super, *name, expr.line)),
        ExprKind::Unary(_, a) | ExprKind::Not(a) | ExprKind::Attr(a, _) => mention(a, out),
        ExprKind::Binary(_, a, b)
        | ExprKind::Compare(_, a, b)
        | ExprKind::And(a, b)
        | ExprKind::Or(a, b)
        | ExprKind::Item(a, b) => {
            mention(a, out)?;
            mention(b, out)?;
            Ok(())
        }
        ExprKind::Choice(a, b, c) => {
            mention(a, out)?;
            mention(b, out)?;
            mention(c, out)?;
            Ok(())
        }
        ExprKind::Slice(a, b, c, d) => {
            mention(a, out)?;
            mention_bound(b, out)?;
            mention_bound(c, out)?;
            mention_bound(d, out)?;
            Ok(())
        }
        ExprKind::Call(a, xs) => {
            mention(a, out)?;
            mention_args(xs, out)?;
            Ok(())
        }
        ExprKind::Tuple(xs) | ExprKind::List(xs) => mention_all(xs, out),
        ExprKind::Dict(xs) => mention_pairs(xs, out),
    }
}

#[cycle(mention)]
#[tactic(auto, using(std::proofs::Common::append_assoc))]
fn mention_bound(bound: &Option<Box<Expr>>, out: &mut Sequence<Mention>) -> Result<(), AllocError>
    ensures { OnOk result (out.new ≡ out.old ++ mentions_in (bound_view bound.now)) }
{
    match bound {
        Some(expr) => mention(expr, out),
        None => Ok(()),
    }
}

#[cycle(mention)]
#[tactic(auto, using(std::proofs::Common::append_assoc))]
pub(crate) fn mention_all(exprs: &[Expr], out: &mut Sequence<Mention>) -> Result<(), AllocError>
    ensures { OnOk result (out.new ≡ out.old ++ mentions_of_all (exprs_view exprs.now)) }
{
    for expr in exprs {
        mention(expr, out)?;
    }
    Ok(())
}

#[cycle(mention)]
#[tactic(auto, using(std::proofs::Common::append_assoc))]
fn mention_args(args: &[Arg], out: &mut Sequence<Mention>) -> Result<(), AllocError>
    ensures { OnOk result (out.new ≡ out.old ++ mentions_of_args (args_view args.now)) }
{
    for arg in args {
        mention(&arg.value, out)?;
    }
    Ok(())
}

#[cycle(mention)]
#[tactic(auto, using(std::proofs::Common::append_assoc))]
fn mention_pairs(pairs: &[Pair], out: &mut Sequence<Mention>) -> Result<(), AllocError>
    ensures { OnOk result (out.new ≡ out.old ++ mentions_of_pairs (pairs_view pairs.now)) }
{
    for pair in pairs {
        mention(&pair.key, out)?;
        mention(&pair.value, out)?;
    }
    Ok(())
}

pub(crate) fn mention_option(
    found: &Option<Expr>,
    out: &mut Sequence<Mention>,
) -> Result<(), AllocError>
    ensures { OnOk result (out.new ≡ out.old ++ mentions_of_option (option_map expr_view found.now)) }
{
    match found {
        Some(expr) => mention(expr, out),
        None => Ok(()),
    }
}

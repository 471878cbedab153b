//! What targets bind and store to.
ghost use Rattle.std.specs.Prelude.{◌≡◌, ◌++◌, OnOk};
ghost use Rattle.py_tree.specs.View.{expr_view, exprs_view};
ghost use Rattle.scope_rules.specs.Mentions.{targets, targets_of_all};

use crate::mention::at;
use place_ids::{LineNo, Sequence};
use py_tree::{Expr, ExprKind};
use scope_rules::{Mention, Role};
use std::alloc::AllocError;

/// Puts what a target binds and stores to at the end. `attribute` is the role of an attribute.
#[cycle(target)]
#[tactic(auto, using(std::proofs::Common::append_assoc))]
pub(crate) fn target(
    expr: &Expr,
    attribute: Role,
    line: LineNo,
    out: &mut Sequence<Mention>,
) -> Result<(), AllocError>
    ensures { OnOk result (out.new ≡ out.old ++ targets attribute line (expr_view expr.now)) }
{
    match &expr.kind {
        ExprKind::Name(name) => out.push(at(Role::Value, *name, line)),
        ExprKind::Attr(_, name) => out.push(at(attribute, *name, expr.line)),
        ExprKind::Tuple(parts) | ExprKind::List(parts) => target_all(parts, attribute, line, out),
        ExprKind::Literal(_)
        | ExprKind::Unary(_, _)
        | ExprKind::Binary(_, _, _)
        | ExprKind::Compare(_, _, _)
        | ExprKind::Not(_)
        | ExprKind::And(_, _)
        | ExprKind::Or(_, _)
        | ExprKind::Choice(_, _, _)
        | ExprKind::Super(_)
        | ExprKind::Item(_, _)
        | ExprKind::Slice(_, _, _, _)
        | ExprKind::Call(_, _)
        | ExprKind::Dict(_) => Ok(()),
    }
}

#[cycle(target)]
#[tactic(auto, using(std::proofs::Common::append_assoc))]
pub(crate) fn target_all(
    exprs: &[Expr],
    attribute: Role,
    line: LineNo,
    out: &mut Sequence<Mention>,
) -> Result<(), AllocError>
    ensures { OnOk result (out.new ≡ out.old ++ targets_of_all attribute line (exprs_view exprs.now)) }
{
    for expr in exprs {
        target(expr, attribute, line, out)?;
    }
    Ok(())
}

//! The lines of targets whose form isn't built.
ghost use Rattle.std.specs.Prelude.{◌≡◌, ◌++◌, OnOk};
ghost use Rattle.py_tree.specs.View.{expr_view, exprs_view};
ghost use Rattle.built_forms.specs.Unbuilt.{in_target, in_targets};

use crate::expressions::parts;
use crate::known::Known;
use place_ids::{LineNo, Sequence};
use py_tree::{Expr, ExprKind};
use std::alloc::AllocError;

/// Puts the lines of a target and its parts at the end.
#[cycle(targets)]
#[tactic(auto, using(std::proofs::Common::append_assoc))]
pub(crate) fn target(
    known: &Known,
    expr: &Expr,
    out: &mut Sequence<LineNo>,
) -> Result<(), AllocError>
    ensures { OnOk result (out.new ≡ out.old ++ in_target known.now (expr_view expr.now)) }
{
    match &expr.kind {
        ExprKind::Name(_) => Ok(()),
        ExprKind::Tuple(xs) | ExprKind::List(xs) => {
            out.push(expr.line)?;
            target_list(known, xs, out)?;
            Ok(())
        }
        other => {
            out.push(expr.line)?;
            parts(known, other, out)?;
            Ok(())
        }
    }
}

#[cycle(targets)]
#[tactic(auto, using(std::proofs::Common::append_assoc))]
pub(crate) fn target_list(
    known: &Known,
    exprs: &[Expr],
    out: &mut Sequence<LineNo>,
) -> Result<(), AllocError>
    ensures { OnOk result (out.new ≡ out.old ++ in_targets known.now (exprs_view exprs.now)) }
{
    for expr in exprs {
        target(known, expr, out)?;
    }
    Ok(())
}

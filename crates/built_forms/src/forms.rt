//! Which forms are built: this is what grows.
ghost use Rattle.std.specs.Prelude.{◌≡◌};
ghost use Rattle.py_tree.specs.View.{expr_view, expr_kind_view, exprs_view, stmt_kind_view};
ghost use Rattle.built_forms.specs.Forms as spec;

use crate::known::Known;
use place_ids::NameId;
use py_tree::{Expr, ExprKind, StmtKind};

fn name_of(node: &Expr) -> Option<NameId>
    ensures { result ≡ spec.name_of (expr_view node.now) }
{
    match &node.kind {
        ExprKind::Name(name) => Some(*name),
        _ => None,
    }
}

fn single_name(targets: &[Expr]) -> Option<NameId>
    ensures { result ≡ spec.single_name (exprs_view targets.now) }
{
    match targets {
        [] => None,
        [target] => name_of(target),
        [_, _, ..] => None,
    }
}

/// The name that a statement of a built form assigns.
pub fn assigned_name(kind: &StmtKind) -> Option<NameId>
    ensures { result ≡ spec.assigned_name (stmt_kind_view kind.now) }
{
    match kind {
        StmtKind::Assign(targets, _) => single_name(targets),
        _ => None,
    }
}

/// Whether a statement's form is built.
pub(crate) fn is_built(kind: &StmtKind) -> bool
    ensures { result ≡ spec.is_built (stmt_kind_view kind.now) }
{
    assigned_name(kind).is_some()
}

/// Whether an expression's form is built, where these names are assigned.
pub(crate) fn is_built_expr(known: &Known, kind: &ExprKind) -> bool
    ensures { result ≡ spec.is_built_expr known.now (expr_kind_view kind.now) }
{
    match kind {
        ExprKind::Literal(_) => true,
        ExprKind::Name(name) => known.contains(*name),
        _ => false,
    }
}

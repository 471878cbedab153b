//! One line of a plain module, from its statement.
ghost use Rattle.std.specs.Prelude.{◌≡◌, MatchOption, Some, None};
ghost use Rattle.py_tree.specs.View.{expr_view, stmt_kind_view};
ghost use Rattle.py_infer.specs.Lines.{type_of};
ghost use Rattle.py_infer.specs.Modules as spec;
ghost use Rattle.py_infer.specs.Modules.{value_of};
ghost use Rattle.py_infer.specs.Typing.{row_of, type_of_expr};

use crate::plain_type::PlainType;
use crate::types::Types;
use built_forms::assigned_name;
use place_ids::{NameId, Names};
use py_tree::{Expr, ExprKind, Literal, StmtKind};

/// A line `NAME = VALUE`: the name, and the type of the value.
#[derive(Clone, Copy, Debug)]
pub struct Line<'m> {
    pub target: &'m str,
    pub plain_type: PlainType,
}

fn text_of(names: &Names, name: NameId) -> &str
    ensures { result.now ≡ spec.text_of names.now name }
{
    match names.text(name) {
        Some(text) => text,
        None => "",
    }
}

fn literal_type(literal: Literal) -> PlainType
    ensures { result ≡ type_of (value_of literal) }
{
    match literal {
        Literal::NoneValue => PlainType::NoneType,
        Literal::TrueValue | Literal::FalseValue => PlainType::Bool,
        Literal::Int(_, _) => PlainType::Int,
        Literal::Float => PlainType::Float,
        Literal::Str(_) => PlainType::Str,
        Literal::Bytes(_) => PlainType::Bytes,
    }
}

// The type of a value, where names have these types.
fn type_of_value(types: &Types, names: &Names, value: &Expr) -> Option<PlainType>
    ensures { result ≡ type_of_expr names.now types.now (expr_view value.now) }
{
    match &value.kind {
        ExprKind::Literal(literal) => Some(literal_type(*literal)),
        ExprKind::Name(name) => types.get(text_of(names, *name)),
        _ => None,
    }
}

/// The line that a statement is, after lines that give names these types.
pub fn line_of<'m>(types: &Types, names: &'m Names, kind: &StmtKind) -> Option<Line<'m>>
    ensures { MatchOption result (row_of names.now types.now (stmt_kind_view kind.now) ≡ None)
        (λ line. row_of names.now types.now (stmt_kind_view kind.now) ≡ Some (line.target.now, line.plain_type)) }
{
    let StmtKind::Assign(_, value) = kind else {
        return None;
    };
    let name = assigned_name(kind)?;
    let plain_type = type_of_value(types, names, value)?;
    let target = text_of(names, name);
    Some(Line { target, plain_type })
}

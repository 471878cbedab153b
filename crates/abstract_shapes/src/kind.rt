//! The kind of a shape's values.
ghost use Rattle.std.specs.Prelude.{◌≡◌, List};
ghost use Rattle.abstract_shapes.specs.Numbering.{structure};
ghost use Rattle.abstract_shapes.specs.Shapes.{kind_of, Shape as StructuralShape};

use crate::Shape;
use builtin_stubs::{Basic, Builtins};

/// The kind of a shape's values.
pub(crate) fn kind_of(shape: &Shape) -> Basic
    ensures { (shapes : List StructuralShape) → result ≡ kind_of (structure shapes shape.now) }
{
    match shape {
        Shape::NoneValue => Basic::NoneKind,
        Shape::TrueValue | Shape::FalseValue => Basic::Bool,
        Shape::Int => Basic::Int,
        Shape::Float => Basic::Float,
        Shape::Str => Basic::Str,
        Shape::Bytes => Basic::Bytes,
        Shape::List(_) => Basic::List,
        Shape::Dict(_) => Basic::Dict,
        Shape::Tuple(_, _) | Shape::Pair(_) => Basic::Tuple,
        Shape::View(_) => Basic::View,
        Shape::Given(term) => Builtins.kind_of_type(term),
        _ => Basic::Other,
    }
}

//! What operators see of a shape.
ghost use Rattle.std.specs.Prelude.{◌≡◌, List};
ghost use Rattle.std.specs.Prelude.{nat_eq};
ghost use Rattle.std.specs.List.{list_any};
ghost use Rattle.abstract_shapes.specs.Numbering.{structure, structures, shape_at};
ghost use Rattle.abstract_shapes.specs.Shapes.{truth_of, Shape as StructuralShape, any};
ghost use Rattle.world_rules.specs.Traits.{traits_of, knowledge_of, is_qualified, is_unfollowed, is_any, is_anything};

use abstract_shapes::{Shape, Shapes};
use builtin_stubs::Basic;
use flow_graph::Truth;
use place_ids::ShapeId;
use type_terms::TypeTerm;
use world_rules::{Knowledge, ShapeTraits};

/// What is seen of the shape under an id. One that is not there counts as any value.
pub(crate) fn traits_at(shapes: &Shapes, id: ShapeId) -> ShapeTraits
    ensures { result ≡ traits_of (shape_at (structures shapes.now) id) }
{
    match shapes.shape(id) {
        Some(shape) => traits_of(shape),
        None => ShapeTraits {
            kind: Basic::Other,
            knowledge: Knowledge::Any,
            truth: Truth::Both,
        },
    }
}

fn traits_of(shape: &Shape) -> ShapeTraits
    ensures { (shapes : List StructuralShape) → result ≡ traits_of (structure shapes shape.now) }
{
    ShapeTraits {
        kind: shape.kind(),
        knowledge: knowledge_of(shape),
        truth: truth_of(shape),
    }
}

fn knowledge_of(shape: &Shape) -> Knowledge
    ensures { (shapes : List StructuralShape) → result ≡ knowledge_of (structure shapes shape.now) }
{
    match shape {
        Shape::Any => Knowledge::Any,
        Shape::Ext => Knowledge::Ext,
        Shape::Given(TypeTerm::Class(name)) if is_qualified(name.bytes()) =>
            Knowledge::StubInstance,
        _ => Knowledge::Followed,
    }
}

// The name of a stub's class has its module and a dot before it.
fn is_qualified(name: &[u8]) -> bool
    ensures { result ≡ is_qualified name.now }
{
    name.contains(&b'.')
}

fn truth_of(shape: &Shape) -> Truth
    ensures { (shapes : List StructuralShape) → result ≡ truth_of (structure shapes shape.now) }
{
    match shape {
        Shape::NoneValue | Shape::FalseValue => Truth::No,
        Shape::TrueValue
        | Shape::Fun(_)
        | Shape::Bound(..)
        | Shape::BoundNative(..)
        | Shape::Class(_)
        | Shape::Inst(_)
        | Shape::Native(_)
        | Shape::Module(_) => Truth::Yes,
        _ => Truth::Both,
    }
}

/// Whether operators don't follow the values.
pub(crate) fn is_unfollowed(traits: ShapeTraits) -> bool
    ensures { result ≡ is_unfollowed traits }
{
    !matches!(traits.knowledge, Knowledge::Followed)
}

pub(crate) fn is_any(traits: ShapeTraits) -> bool
    ensures { result ≡ is_any traits }
{
    matches!(traits.knowledge, Knowledge::Any)
}

/// Whether nothing tells the values from others.
pub(crate) fn is_anything(traits: ShapeTraits) -> bool
    ensures { result ≡ is_anything traits }
{
    matches!(traits.knowledge, Knowledge::Any | Knowledge::Ext)
}

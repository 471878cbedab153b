//! Whether two rows, or two shapes, are the same.
ghost use Rattle.std.specs.Prelude.{◌≡◌};
ghost use Rattle.std.specs.Str.{bytes_eq};
ghost use Rattle.abstract_shapes.specs.declared.shape.Shape.TheVariants.{Tuple, Bound, BoundNative, Given};
ghost use Rattle.abstract_shapes.specs.Same.{same_row, same_shape};

use crate::{Row, Shape};
use place_ids::{ClassId, FunId, ShapeId, SiteId, Text};
use type_terms::TypeTerm;

impl PartialEq for Shape {
    ghost use Rattle.std.specs.Cmp.{partial_equiv_from_equiv};
    ghost use Rattle.abstract_shapes.specs.Same.{same_shape};
    ghost use Rattle.abstract_shapes.specs.SameLaws.{same_equiv};

    ghost eq = { same_shape };

    ghost laws = { partial_equiv_from_equiv same_equiv };

    fn eq(&self, other: &Shape) -> bool {
        same_shape(self, other)
    }
}

impl Eq for Shape {
    ghost use Rattle.abstract_shapes.specs.SameLaws.{same_equiv};

    ghost laws = { same_equiv };
}

fn same_text(first: &Text, second: &Text) -> bool
    ensures { result ≡ bytes_eq first.now second.now }
{
    first.bytes() == second.bytes()
}

pub(crate) fn same_row(first: &Row, second: &Row) -> bool
    ensures { result ≡ same_row first.now second.now }
{
    match (first, second) {
        (Row::Builtin(native), Row::Builtin(other)) => native == other,
        (Row::StubFun(module, fun), Row::StubFun(other, name)) => {
            same_text(module, other) && same_text(fun, name)
        }
        (Row::StubClass(module, class), Row::StubClass(other, name)) => {
            same_text(module, other) && same_text(class, name)
        }
        (Row::StubMethod(module, class, fun), Row::StubMethod(other, name, method)) => {
            same_text(module, other) && same_text(class, name) && same_text(fun, method)
        }
        _ => false,
    }
}

/// Whether two shapes are the same, where their receivers are numbered in one table.
pub(crate) fn same_shape(first: &Shape, second: &Shape) -> bool
    ensures { result ≡ same_shape first.now second.now }
{
    match first {
        Shape::NoneValue => matches!(second, Shape::NoneValue),
        Shape::TrueValue => matches!(second, Shape::TrueValue),
        Shape::FalseValue => matches!(second, Shape::FalseValue),
        Shape::Int => matches!(second, Shape::Int),
        Shape::Float => matches!(second, Shape::Float),
        Shape::Str => matches!(second, Shape::Str),
        Shape::Bytes => matches!(second, Shape::Bytes),
        Shape::List(site) => matches!(second, Shape::List(other) if site == other),
        Shape::Dict(site) => matches!(second, Shape::Dict(other) if site == other),
        Shape::Tuple(site, places) => is_tuple(*site, *places, second),
        Shape::Pair(site) => matches!(second, Shape::Pair(other) if site == other),
        Shape::View(site) => matches!(second, Shape::View(other) if site == other),
        Shape::Fun(fun) => matches!(second, Shape::Fun(other) if fun == other),
        Shape::Bound(class, fun) => is_bound(*class, *fun, second),
        Shape::BoundNative(shape, row) => is_bound_native(*shape, row, second),
        Shape::Class(class) => matches!(second, Shape::Class(other) if class == other),
        Shape::Inst(class) => matches!(second, Shape::Inst(other) if class == other),
        Shape::Native(row) => matches!(second, Shape::Native(other) if same_row(row, other)),
        Shape::Module(name) => matches!(second, Shape::Module(other) if same_text(name, other)),
        Shape::Given(term) => is_given(term, second),
        Shape::Ext => matches!(second, Shape::Ext),
        Shape::Any => matches!(second, Shape::Any),
    }
}

fn is_tuple(site: SiteId, places: Option<u32>, shape: &Shape) -> bool
    ensures { result ≡ same_shape (Tuple site places) shape.now }
{
    match shape {
        Shape::Tuple(other, many) => site == *other && places == *many,
        _ => false,
    }
}

fn is_bound(class: ClassId, fun: FunId, shape: &Shape) -> bool
    ensures { result ≡ same_shape (Bound class fun) shape.now }
{
    match shape {
        Shape::Bound(other, method) => class == *other && fun == *method,
        _ => false,
    }
}

fn is_bound_native(receiver: ShapeId, row: &Row, shape: &Shape) -> bool
    ensures { result ≡ same_shape (BoundNative receiver row.now) shape.now }
{
    match shape {
        Shape::BoundNative(other, native) => receiver == *other && same_row(row, native),
        _ => false,
    }
}

fn is_given(term: &TypeTerm, shape: &Shape) -> bool
    ensures { result ≡ same_shape (Given term.now) shape.now }
{
    match shape {
        Shape::Given(other) => term.same(other),
        _ => false,
    }
}

//! Copies of texts, rows and shapes.
ghost use Rattle.std.specs.Prelude.{◌≡◌, List, ℕ, IfOk};
ghost use Rattle.abstract_shapes.specs.Numbering.{structure, IsThere, IsOuter};
ghost use Rattle.abstract_shapes.specs.Shapes.{Shape as StructuralShape};

use crate::{Row, Shape};
use place_ids::Text;
use std::alloc::{AllocError, Global};

pub(crate) fn copy_text(alloc: Global, bytes: &[u8]) -> Result<Text, AllocError>
    ensures { IfOk result (λ made. made ≡ bytes.now) }
{
    let mut made = Text::new(alloc);
    made.push(bytes)?;
    Ok(made)
}

pub(crate) fn copy_row(alloc: Global, row: &Row) -> Result<Row, AllocError>
    ensures { IfOk result (λ made. made ≡ row.now) }
{
    match row {
        Row::Builtin(native) => Ok(Row::Builtin(*native)),
        Row::StubFun(module, fun) => Ok(Row::StubFun(
            copy_text(alloc, module.bytes())?,
            copy_text(alloc, fun.bytes())?,
        )),
        Row::StubClass(module, class) => Ok(Row::StubClass(
            copy_text(alloc, module.bytes())?,
            copy_text(alloc, class.bytes())?,
        )),
        Row::StubMethod(module, class, fun) => Ok(Row::StubMethod(
            copy_text(alloc, module.bytes())?,
            copy_text(alloc, class.bytes())?,
            copy_text(alloc, fun.bytes())?,
        )),
    }
}

pub(crate) fn copy_shape(alloc: Global, shape: &Shape) -> Result<Shape, AllocError>
    ensures same { IfOk result (λ made. (shapes : List StructuralShape) → structure shapes made ≡ structure shapes shape.now) }
    ensures receiver { IfOk result (λ made. (count : ℕ) → IsThere count shape.now → IsThere count made) }
    ensures given { IfOk result (λ made. IsOuter shape.now → IsOuter made) }
{
    match shape {
        Shape::NoneValue => Ok(Shape::NoneValue),
        Shape::TrueValue => Ok(Shape::TrueValue),
        Shape::FalseValue => Ok(Shape::FalseValue),
        Shape::Int => Ok(Shape::Int),
        Shape::Float => Ok(Shape::Float),
        Shape::Str => Ok(Shape::Str),
        Shape::Bytes => Ok(Shape::Bytes),
        Shape::List(site) => Ok(Shape::List(*site)),
        Shape::Dict(site) => Ok(Shape::Dict(*site)),
        Shape::Tuple(site, places) => Ok(Shape::Tuple(*site, *places)),
        Shape::Pair(site) => Ok(Shape::Pair(*site)),
        Shape::View(site) => Ok(Shape::View(*site)),
        Shape::Fun(fun) => Ok(Shape::Fun(*fun)),
        Shape::Bound(class, fun) => Ok(Shape::Bound(*class, *fun)),
        Shape::BoundNative(id, row) => Ok(Shape::BoundNative(*id, copy_row(alloc, row)?)),
        Shape::Class(class) => Ok(Shape::Class(*class)),
        Shape::Inst(class) => Ok(Shape::Inst(*class)),
        Shape::Native(row) => Ok(Shape::Native(copy_row(alloc, row)?)),
        Shape::Module(name) => Ok(Shape::Module(copy_text(alloc, name.bytes())?)),
        Shape::Given(term) => Ok(Shape::Given(term.copy(alloc)?)),
        Shape::Ext => Ok(Shape::Ext),
        Shape::Any => Ok(Shape::Any),
    }
}

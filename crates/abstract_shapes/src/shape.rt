//! Abstract values.
ghost use Rattle.std.specs.Prelude.{◌≡◌, List, ℕ, IfOk};
ghost use Rattle.abstract_shapes.specs.Numbering.{structure, IsThere, IsOuter};
ghost use Rattle.abstract_shapes.specs.Shapes.{kind_of, Shape as StructuralShape};

use crate::copied::copy_shape;
use crate::kind::kind_of;
use builtin_stubs::{Basic, NativeId};
use place_ids::{ClassId, FunId, ShapeId, SiteId, Text};
use std::alloc::{AllocError, Global};
use type_terms::TypeTerm;

/// A function, class or method that isn't the module's own.
#[derive(Debug, Drop)]
pub enum Row {
    /// One of Python's.
    Builtin(NativeId),
    /// The module of a stub, and the name of its function.
    StubFun(Text, Text),
    StubClass(Text, Text),
    /// The module of a stub, the name of its class and that of the method.
    StubMethod(Text, Text, Text),
}

/// What an abstract value is.
#[derive(Debug, Drop)]
pub enum Shape {
    NoneValue,
    TrueValue,
    FalseValue,
    Int,
    Float,
    Str,
    Bytes,
    /// The lists that one place of the text makes.
    List(SiteId),
    Dict(SiteId),
    /// With the number of places, where a display makes it; else all elements stand in one table.
    Tuple(SiteId, Option<u32>),
    /// The tuple of two places that a view gives.
    Pair(SiteId),
    View(SiteId),
    Fun(FunId),
    /// A method bound to an instance of a class.
    Bound(ClassId, FunId),
    /// A native bound to a receiver, whose shape has this id.
    BoundNative(ShapeId, Row),
    Class(ClassId),
    Inst(ClassId),
    Native(Row),
    /// The module of a stub.
    Module(Text),
    /// A value from outside of a declared type, which is normal.
    Given(TypeTerm),
    /// A value from outside of no declared type.
    Ext,
    /// Every value.
    Any,
}

impl Shape {
    /// The kind of the shape's values. Where nothing is known of them it is `Other`.
    pub fn kind(&self) -> Basic
        ensures { (shapes : List StructuralShape) → result ≡ kind_of (structure shapes self.now) }
    {
        kind_of(self)
    }

    /// The same shape again, where receivers are numbered in one table.
    pub fn copy(&self, alloc: Global) -> Result<Shape, AllocError>
        ensures same { IfOk result (λ made. (shapes : List StructuralShape) → structure shapes made ≡ structure shapes self.now) }
        ensures receiver { IfOk result (λ made. (count : ℕ) → IsThere count self.now → IsThere count made) }
        ensures given { IfOk result (λ made. IsOuter self.now → IsOuter made) }
    {
        copy_shape(alloc, self)
    }
}

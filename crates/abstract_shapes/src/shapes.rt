//! Shapes under ids.
ghost use Rattle.std.specs.Prelude.{◌≡◌, ◌↔◌, ◌+◌, ◌-◌, ◌^◌, ◌<◌, [], ◌∷◌, ◌++◌, Some, None, length, slice_get, option_map, IsErrOf, IsOk, IfOk, IfSome, OnOk, OnErr};
ghost use Rattle.abstract_shapes.specs.Numbering.{structure, structures, shape_at, IsThere, IsOuter, HasId, HaveOneId};
ghost use Rattle.std.specs.Prelude.{List};
ghost use Rattle.abstract_shapes.specs.Shapes.{truth_of, Shape as StructuralShape};

use crate::Shape;
use flow_graph::Truth;
use indexmap::IndexSet;
use place_ids::{Id, PushFault, ShapeId};
use std::alloc::Global;
use std::marker::Model;

/// Shapes under ids that number them from 0. Contracts see the list of what was kept, and by it the shapes by structure.
#[derive(Debug, Drop)]
pub struct Shapes {
    rows: IndexSet<Shape>,
}

impl Model for Shapes {
    ghost use Rattle.std.specs.Prelude.{List};
    ghost use Rattle.std.specs.Coded.{coded_list};
    ghost use Rattle.abstract_shapes.specs.contracts.shape.Shape as shape_row;
    ghost use Rattle.abstract_shapes.specs.declared.shape.Shape.{Shape};

    ghost Value = { List Shape };

    ghost coded = { coded_list shape_row.the_row.coded };

    ghost use Rattle.abstract_shapes.specs.Numbering.{IsNumbering};

    ghost view = { λ shapes. shapes.rows.keys };

    ghost invariant = { λ shapes. IsNumbering shapes.rows.keys };
}

impl Shapes {
    /// No shapes. It takes no memory.
    pub fn new(alloc: Global) -> Shapes
        ensures { result ≡ [] }
    {
        Shapes {
            rows: IndexSet::new(alloc),
        }
    }

    /// The id of a shape, which is put at the end if it is new. One that is there already keeps its id, and is dropped.
    pub fn intern(&mut self, shape: Shape) -> Result<ShapeId, PushFault>
        requires receiver { IsThere (length self.old) shape }
        requires given { IsOuter shape }
        ensures numbered { IfOk result (λ id. slice_get (structures self.new) id ≡ Some (structure (structures self.old) shape)) }
        ensures known { HasId (structures self.old) (structure (structures self.old) shape) → IsOk result × (self.new ≡ self.old) }
        ensures fresh { (HasId (structures self.old) (structure (structures self.old) shape) → ⊥) →
            OnOk result (structures self.new ≡ structures self.old ++ structure (structures self.old) shape ∷ []) }
        ensures full { IsErrOf result PushFault.Full ↔
            ((HasId (structures self.old) (structure (structures self.old) shape) → ⊥) × (length self.old ≡ 2 ^ 32 - 1)) }
        ensures refused { OnErr result (self.new ≡ self.old) }
        ensures within { IfOk result (λ id. id < length self.new) }
        ensures once { HaveOneId (structures self.new) }
    {
        match self.find(&shape) {
            Some(id) => Ok(id),
            None => self.add(shape),
        }
    }

    /// The shape under an id, if there is one.
    pub fn shape(&self, id: ShapeId) -> Option<&Shape>
        ensures shape { option_map (λ shape. structure (structures self.now) shape.now) result ≡ slice_get (structures self.now) id }
        ensures receiver { IfSome result (λ shape. IsThere id shape.now) }
        ensures given { IfSome result (λ shape. IsOuter shape.now) }
        ensures once { HaveOneId (structures self.now) }
    {
        self.rows.get_index(id.number() as usize)
    }

    /// Whether the values of a shape are true.
    pub fn truth(&self, id: ShapeId) -> Truth
        requires { id < length self.now }
        ensures { result ≡ truth_of (shape_at (structures self.now) id) }
    {
        match self.rows.get_index(id.number() as usize) {
            Some(shape) => truth_of(shape),
            None => Truth::Both,
        }
    }

    /// How many shapes there are.
    pub fn len(&self) -> u32
        ensures { result ≡ length self.now }
    {
        self.rows.len() as u32
    }

    // The id of a shape, if it has one.
    fn find(&self, shape: &Shape) -> Option<ShapeId>
        ensures found { IfSome result (λ id. slice_get (structures self.now) id ≡ Some (structure (structures self.now) shape.now)) }
        ensures within { IfSome result (λ id. id < length self.now) }
        ensures none { result ≡ None → IsThere (length self.now) shape.now → HasId (structures self.now) (structure (structures self.now) shape.now) → ⊥ }
        ensures once { HaveOneId (structures self.now) }
    {
        let place = self.rows.get_index_of(shape)?;
        Some(ShapeId::new(place as u32))
    }

    // Puts a shape at the end that isn't there yet.
    fn add(&mut self, shape: Shape) -> Result<ShapeId, PushFault>
        requires receiver { IsThere (length self.old) shape }
        requires given { IsOuter shape }
        requires fresh { HasId (structures self.old) (structure (structures self.old) shape) → ⊥ }
        ensures added { OnOk result (structures self.new ≡ structures self.old ++ structure (structures self.old) shape ∷ []) }
        ensures numbered { IfOk result (λ id. slice_get (structures self.new) id ≡ Some (structure (structures self.old) shape)) }
        ensures within { IfOk result (λ id. id < length self.new) }
        ensures full { IsErrOf result PushFault.Full ↔ (length self.old ≡ 2 ^ 32 - 1) }
        ensures refused { OnErr result (self.new ≡ self.old) }
        ensures once { HaveOneId (structures self.new) }
    {
        let number = self.rows.len() as u32;
        if number == u32::MAX {
            return Err(PushFault::Full);
        }
        match self.rows.insert(shape) {
            Ok(_) => Ok(ShapeId::new(number)),
            Err(_) => Err(PushFault::Memory),
        }
    }
}

fn truth_of(shape: &Shape) -> Truth
    ensures { (shapes : List StructuralShape) → result ≡ truth_of (structure shapes shape.now) }
{
    match shape {
        Shape::NoneValue | Shape::FalseValue => Truth::No,
        Shape::TrueValue | Shape::Fun(_) | Shape::Bound(_, _) => Truth::Yes,
        Shape::BoundNative(_, _) | Shape::Class(_) | Shape::Inst(_) => Truth::Yes,
        Shape::Native(_) | Shape::Module(_) => Truth::Yes,
        _ => Truth::Both,
    }
}

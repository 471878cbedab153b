//! The shapes of one place.
ghost use Rattle.std.specs.Prelude.{◌≡◌, [], true, not, nat_eq, IsOk, IfOk, OnOk, OnErr};
ghost use Rattle.std.specs.List.{IsDistinct};
ghost use Rattle.abstract_shapes.specs.Tables.{has_shape, with_shape};

use crate::Place;
use indexmap::IndexSet;
use place_ids::ShapeId;
use std::alloc::{AllocError, Global};
use std::marker::Model;

/// Shapes in the order in which they came, each once.
#[derive(Debug, Drop)]
pub(crate) struct Table {
    shapes: IndexSet<ShapeId>,
}

/// A place and its shapes.
#[derive(Debug, Drop)]
pub(crate) struct TableRow {
    pub(crate) place: Place,
    pub(crate) shapes: Table,
}

impl Model for Table {
    ghost use Rattle.std.specs.Prelude.{List, ℕ};

    ghost Value = { List ℕ };

    ghost view = { λ table. table.shapes.keys };

    ghost use Rattle.std.specs.Prelude.{nat_eq};
    ghost use Rattle.std.specs.List.{IsDistinct};

    ghost invariant = { λ table. IsDistinct nat_eq table.shapes.keys };
}

impl Table {
    pub(crate) fn new(alloc: Global) -> Table
        ensures { result ≡ [] }
    {
        Table {
            shapes: IndexSet::new(alloc),
        }
    }

    pub(crate) fn items(&self) -> &[ShapeId]
        ensures shapes { result.now ≡ self.now }
        ensures once { IsDistinct nat_eq self.now }
    {
        self.shapes.as_slice()
    }

    pub(crate) fn has(&self, shape: ShapeId) -> bool
        ensures { result ≡ has_shape shape self.now }
    {
        self.shapes.contains(&shape)
    }

    /// Adds a shape, and answers whether it is new. One that is there takes no memory.
    pub(crate) fn add(&mut self, shape: ShapeId) -> Result<bool, AllocError>
        ensures added { OnOk result (self.new ≡ with_shape shape self.old) }
        ensures fresh { IfOk result (λ fresh. fresh ≡ not (has_shape shape self.old)) }
        ensures known { has_shape shape self.old ≡ true → IsOk result }
        ensures refused { OnErr result (self.new ≡ self.old) }
    {
        match self.shapes.insert(shape) {
            Ok(fresh) => Ok(fresh),
            Err(_) => Err(AllocError),
        }
    }
}

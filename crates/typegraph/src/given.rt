//! The shapes of one variable.
ghost use Rattle.std.specs.Prelude.{◌≡◌, ℕ, List, ◌∷◌, ◌++◌, [], true, false, Ok, OnOk, OnErr};
ghost use Rattle.typegraph.specs.Kept.{push_shape};

use indexmap::IndexSet;
use place_ids::ShapeId;
use std::alloc::{AllocError, Global};
use std::marker::Model;

/// Shapes in the order in which they came, each once.
#[derive(Debug, Drop)]
pub struct Given {
    shapes: IndexSet<ShapeId>,
}

impl Model for Given {
    ghost use Rattle.std.specs.Prelude.{ℕ, List};

    ghost Value = { List ℕ };

    ghost view = { λ g. g.shapes.keys };
}

impl Given {
    pub fn new(alloc: Global) -> Given
        ensures { result ≡ [] }
    {
        Given {
            shapes: IndexSet::new(alloc),
        }
    }

    pub fn items(&self) -> &[ShapeId]
        ensures { result.now ≡ self.now }
    {
        self.shapes.as_slice()
    }

    /// Adds a shape, and answers whether it is new.
    pub fn add(&mut self, shape: ShapeId) -> Result<bool, AllocError>
        ensures added { OnOk result (self.new ≡ push_shape shape self.old) }
        ensures fresh { result ≡ Ok true → self.new ≡ self.old ++ shape ∷ [] }
        ensures known { result ≡ Ok false → self.new ≡ self.old }
        ensures refused { OnErr result (self.new ≡ self.old) }
    {
        match self.shapes.insert(shape) {
            Ok(fresh) => Ok(fresh),
            Err(_) => Err(AllocError),
        }
    }

    /// Takes the last shape off.
    pub fn remove_last(&mut self)
        ensures { (rest : List ℕ) (shape : ℕ) → self.old ≡ rest ++ shape ∷ [] → self.new ≡ rest }
    {
        let _ = self.shapes.pop();
    }
}

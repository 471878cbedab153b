//! Where the facts of each shape stand in a row of facts.
ghost use Rattle.std.specs.Prelude.{◌≡◌, ◌<◌, ℕ, [], ◌∷◌, ◌++◌, length, IfOk, OnOk, OnErr, if◌then◌else◌, nat_eq};
ghost use Rattle.std.specs.List.{Contains};
ghost use Rattle.typegraph.specs.Kept.{places_in, IsFirstAt};

use indexmap::IndexSet;
use place_ids::{Sequence, ShapeId};
use std::alloc::{AllocError, Global};
use std::marker::Model;

/// The shapes, and a list of places for each.
#[derive(Debug, Drop)]
pub struct Places {
    alloc: Global,
    shapes: IndexSet<ShapeId>,
    lists: Vec<Sequence<usize>>,
}

impl Model for Places {
    ghost use Rattle.std.specs.Prelude.{◌≡◌, length};
    ghost use Rattle.typegraph.specs.Kept.{PlaceTables};

    ghost Value = { PlaceTables };

    ghost view = { λ p. record { shapes = p.shapes.keys; lists = p.lists.items } };

    ghost invariant = { λ p. length p.lists.items ≡ length p.shapes.keys };
}

impl Places {
    pub fn new(alloc: Global) -> Places
        ensures { result ≡ record { shapes = []; lists = [] } }
    {
        Places {
            alloc,
            shapes: IndexSet::new(alloc),
            lists: Vec::new(alloc),
        }
    }

    /// The places of a shape, in the order in which they came.
    pub fn of(&self, shape: ShapeId) -> &[usize]
        ensures { result.now ≡ places_in self.now shape }
    {
        match self.shapes.get_index_of(&shape) {
            Some(list) => self.lists[list].items(),
            None => &[],
        }
    }

    /// A place more for a shape.
    pub fn push(&mut self, shape: ShapeId, place: usize) -> Result<(), AllocError>
        ensures pushed { OnOk result ((s : ℕ) → places_in self.new s ≡ (if nat_eq s shape then places_in self.old s ++ place ∷ [] else places_in self.old s)) }
        ensures refused { OnErr result ((s : ℕ) → places_in self.new s ≡ places_in self.old s) }
    {
        let list = self.list_of(shape)?;
        self.lists[list].push(place)
    }

    // The list of a shape, which is a new one where it has none.
    fn list_of(&mut self, shape: ShapeId) -> Result<usize, AllocError>
        ensures within { IfOk result (λ list. list < length self.new.lists) }
        ensures found { IfOk result (λ list. IsFirstAt self.new.shapes shape list) }
        ensures same { (s : ℕ) → places_in self.new s ≡ places_in self.old s }
    {
        match self.shapes.get_index_of(&shape) {
            Some(list) => Ok(list),
            None => self.add_list(shape),
        }
    }

    // A list for a shape that has none.
    fn add_list(&mut self, shape: ShapeId) -> Result<usize, AllocError>
        requires { Contains self.old.shapes shape → ⊥ }
        ensures within { IfOk result (λ list. list < length self.new.lists) }
        ensures found { IfOk result (λ list. IsFirstAt self.new.shapes shape list) }
        ensures same { (s : ℕ) → places_in self.new s ≡ places_in self.old s }
    {
        let list = self.shapes.len();
        self.lists.push(Sequence::new(self.alloc))?;
        match self.shapes.insert(shape) {
            Ok(_) => Ok(list),
            Err(_) => {
                let _ = self.lists.pop();
                Err(AllocError)
            }
        }
    }
}

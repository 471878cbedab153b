//! The facts of one point.
ghost use Rattle.std.specs.Prelude.{◌≡◌, ◌↔◌, [], ◌∷◌, ◌++◌, IsTrue, OnOk, OnErr};
ghost use Rattle.std.specs.List.{Contains};
ghost use Rattle.typegraph.specs.Graphs.{ArePlacesOf, push_fact};

use crate::fact::Fact;
use crate::places::Places;
use indexmap::IndexSet;
use place_ids::ShapeId;
use std::alloc::{AllocError, Global};
use std::marker::Model;

/// Facts in the order in which they came, each once, and where those of each shape stand.
#[derive(Debug, Drop)]
pub struct FactRow {
    facts: IndexSet<Fact>,
    places: Places,
}

impl Model for FactRow {
    ghost use Rattle.std.specs.Prelude.{List, ℕ};
    ghost use Rattle.typegraph.specs.declared.fact.Fact.{Fact};
    ghost use Rattle.typegraph.specs.Graphs.{ArePlacesOf};
    ghost use Rattle.typegraph.specs.Kept.{places_in};

    ghost Value = { List Fact };

    ghost view = { λ r. r.facts.keys };

    ghost invariant = { λ r. (s : ℕ) → ArePlacesOf r.facts.keys s (places_in r.places s) };
}

impl FactRow {
    pub fn new(alloc: Global) -> FactRow
        ensures { result ≡ [] }
    {
        FactRow {
            facts: IndexSet::new(alloc),
            places: Places::new(alloc),
        }
    }

    pub fn items(&self) -> &[Fact]
        ensures { result.now ≡ self.now }
    {
        self.facts.as_slice()
    }

    pub fn has(&self, fact: &Fact) -> bool
        ensures { IsTrue result ↔ Contains self.now fact.now }
    {
        self.facts.contains(fact)
    }

    /// Where the facts of a shape stand.
    pub fn places_of(&self, shape: ShapeId) -> &[usize]
        ensures { ArePlacesOf self.now shape result.now }
    {
        self.places.of(shape)
    }

    pub fn push(&mut self, fact: Fact) -> Result<(), AllocError>
        requires { Contains self.old fact → ⊥ }
        ensures pushed { OnOk result (self.new ≡ push_fact fact self.old) }
        ensures refused { OnErr result (self.new ≡ self.old) }
    {
        self.facts.reserve(1)?;
        let place = self.facts.len();
        self.places.push(fact.shape, place)?;
        // There is room for it.
        let _ = self.facts.insert(fact);
        Ok(())
    }
}

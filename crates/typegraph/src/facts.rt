//! The facts of each point, and the shapes that they give.
ghost use Rattle.std.specs.Prelude.{◌≡◌, ◌↔◌, ℕ, List, ◌<◌, ◌++◌, ◌∷◌, [], length, slice_get, IsTrue, OnOk, OnErr};
ghost use Rattle.std.specs.List.{Contains};
ghost use Rattle.flow_graph.specs.Flows.{changed_at};
ghost use Rattle.typegraph.specs.Graphs.{row_of, push_fact, ArePlacesOf};
ghost use Rattle.typegraph.specs.Kept.{push_shape};
ghost use Rattle.typegraph.specs.declared.fact.Fact.{Fact as FactValue};

use crate::fact::Fact;
use crate::given::Given;
use crate::row::FactRow;
use place_ids::{Id, PointId, ShapeId, VarId};
use std::alloc::{AllocError, Global};
use std::marker::Model;

/// A row of facts for each point, and a row of shapes for each variable.
#[derive(Debug, Drop)]
pub struct Facts {
    alloc: Global,
    rows: Vec<FactRow>,
    given: Vec<Given>,
}

impl Model for Facts {
    ghost use Rattle.typegraph.specs.Kept.{FactTables};

    ghost Value = { FactTables };

    ghost view = { λ f. record { rows = f.rows.items; given = f.given.items } };
}

impl Facts {
    pub fn new(alloc: Global) -> Facts
        ensures { result ≡ record { rows = []; given = [] } }
    {
        Facts {
            alloc,
            rows: Vec::new(alloc),
            given: Vec::new(alloc),
        }
    }

    pub fn points(&self) -> usize
        ensures { result ≡ length self.now.rows }
    {
        self.rows.len()
    }

    pub fn vars(&self) -> usize
        ensures { result ≡ length self.now.given }
    {
        self.given.len()
    }

    pub fn at(&self, point: PointId) -> &[Fact]
        ensures { result.now ≡ row_of (slice_get self.now.rows point) }
    {
        match self.rows.get(point.number() as usize) {
            Some(row) => row.items(),
            None => &[],
        }
    }

    /// Whether a point has the fact.
    pub fn has(&self, point: PointId, fact: &Fact) -> bool
        ensures { IsTrue result ↔ Contains (row_of (slice_get self.now.rows point)) fact.now }
    {
        match self.rows.get(point.number() as usize) {
            Some(row) => row.has(fact),
            None => false,
        }
    }

    pub fn places_of(&self, point: PointId, shape: ShapeId) -> &[usize]
        ensures { ArePlacesOf (row_of (slice_get self.now.rows point)) shape result.now }
    {
        match self.rows.get(point.number() as usize) {
            Some(row) => row.places_of(shape),
            None => &[],
        }
    }

    pub fn shapes_of(&self, var: VarId) -> &[ShapeId]
        ensures { result.now ≡ row_of (slice_get self.now.given var) }
    {
        match self.given.get(var.number() as usize) {
            Some(row) => row.items(),
            None => &[],
        }
    }

    pub fn add_point(&mut self) -> Result<(), AllocError>
        ensures added { OnOk result (self.new ≡ record self.old { rows = self.old.rows ++ [] ∷ [] }) }
        ensures refused { OnErr result (self.new ≡ self.old) }
    {
        let row = FactRow::new(self.alloc);
        match self.rows.push(row) {
            Ok(()) => Ok(()),
            Err(_) => Err(AllocError),
        }
    }

    pub fn add_var(&mut self) -> Result<(), AllocError>
        ensures added { OnOk result (self.new ≡ record self.old { given = self.old.given ++ [] ∷ [] }) }
        ensures refused { OnErr result (self.new ≡ self.old) }
    {
        let row = Given::new(self.alloc);
        match self.given.push(row) {
            Ok(()) => Ok(()),
            Err(_) => Err(AllocError),
        }
    }

    /// Takes the last point off, which has no facts.
    pub fn remove_point(&mut self)
        ensures { (rows : List (List FactValue)) → self.old.rows ≡ rows ++ [] ∷ [] → self.new ≡ record self.old { rows = rows } }
    {
        let _ = self.rows.pop();
    }

    /// Takes the last variable off, which has no shapes.
    pub fn remove_var(&mut self)
        ensures { (given : List (List ℕ)) → self.old.given ≡ given ++ [] ∷ [] → self.new ≡ record self.old { given = given } }
    {
        let _ = self.given.pop();
    }

    /// Puts a fact at a point, whose target is the variable.
    pub fn push(&mut self, point: PointId, var: VarId, fact: Fact) -> Result<(), AllocError>
        requires point { point < length self.old.rows }
        requires var { var < length self.old.given }
        requires fresh { Contains (row_of (slice_get self.old.rows point)) fact → ⊥ }
        ensures pushed { OnOk result (self.new ≡ record { rows = changed_at (push_fact fact) self.old.rows point; given = changed_at (push_shape fact.shape) self.old.given var }) }
        ensures refused { OnErr result (self.new ≡ self.old) }
    {
        let fresh = self.given[var.number() as usize].add(fact.shape)?;
        match self.rows[point.number() as usize].push(fact) {
            Ok(()) => Ok(()),
            Err(fault) => {
                if fresh {
                    self.given[var.number() as usize].remove_last();
                }
                Err(fault)
            }
        }
    }
}

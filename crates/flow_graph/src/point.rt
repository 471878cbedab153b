//! A point, and the edges that lead to it.
ghost use Rattle.std.specs.Prelude.{◌≡◌, ◌∷◌, ◌++◌, [], true, false, Ok, OnErr};
ghost use Rattle.std.specs.List.{Contains};

use crate::{Ask, Edge, Test};
use indexmap::IndexSet;
use place_ids::VarId;
use std::alloc::{AllocError, Global};
use std::marker::Model;

/// What its facts are about, whether walks start there, and the edges into it in the order in which they came.
#[derive(Debug, Drop)]
pub struct Point {
    target: Option<VarId>,
    root: bool,
    into: IndexSet<Edge>,
}

impl Model for Point {
    ghost use Rattle.flow_graph.specs.Flows.{PointRow};

    ghost Value = { PointRow };

    ghost view = { λ p. record { target = p.target; root = p.root; into = p.into.keys } };
}

impl Point {
    pub fn new(alloc: Global, target: Option<VarId>, root: bool) -> Point
        ensures { result ≡ record { target = target; root = root; into = [] } }
    {
        Point {
            target,
            root,
            into: IndexSet::new(alloc),
        }
    }

    pub fn target(&self) -> Option<VarId>
        ensures { result ≡ self.now.target }
    {
        self.target
    }

    pub fn root(&self) -> bool
        ensures { result ≡ self.now.root }
    {
        self.root
    }

    pub fn into(&self) -> &[Edge]
        ensures { result.now ≡ self.now.into }
    {
        self.into.as_slice()
    }

    /// Adds an edge, unless the point has it.
    pub fn add(&mut self, edge: Edge) -> Result<bool, AllocError>
        ensures fresh { result ≡ Ok true → (Contains self.old.into edge → ⊥) × (self.new ≡ record self.old { into = self.old.into ++ edge ∷ [] }) }
        ensures known { result ≡ Ok false → Contains self.old.into edge × (self.new ≡ self.old) }
        ensures refused { OnErr result (self.new ≡ self.old) }
    {
        // The check finds the types within an edge only where a function names them.
        let _within: (Option<Ask>, Option<Test>) = (None, None);
        match self.into.insert(edge) {
            Ok(fresh) => Ok(fresh),
            Err(_) => Err(AllocError),
        }
    }
}

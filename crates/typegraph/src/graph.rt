//! A typegraph: facts with their source sets over a flow.
ghost use Rattle.std.specs.Prelude.{◌≡◌, ◌↔◌, ℕ, ◌-◌, ◌^◌, ◌<◌, ◌≤◌, [], true, false, Ok, Err, Some, length, slice_get, IsTrue, IsSome, IsErrOf, IsOk, IfOk, OnOk, OnErr};
ghost use Rattle.std.specs.List.{All, AllPairs, Contains};
ghost use Rattle.flow_graph.specs.Flows.{target_of, with_var, with_point, with_context, with_edge, HasEdge, HasContext};
ghost use Rattle.flow_graph.specs.Validity.{IsThere, IsAskThere};
ghost use Rattle.typegraph.specs.Maps.{IsOnce};
ghost use Rattle.typegraph.specs.Clashes.{IsConsistent, IsFirstClash};
ghost use Rattle.typegraph.specs.Graphs.{row_of, ArePlacesOf, with_flow, with_row, with_shape, with_fact, HasFact, IsWithFact, IsGiven, item_total};
ghost use Rattle.typegraph.specs.Validity.{IsShapeAskThere, IsBindingThere, IsValid};

use crate::clash::first_clash;
use crate::counts::Counts;
use crate::fact::{Fact, FactFault};
use crate::facts::Facts;
use crate::goals::{Binding, GoalMap};
use flow_graph::{Ask, Edge, Flow, Test, Truth};
use place_ids::{ContextId, FunId, PointId, PushFault, ShapeId, Table, VarId};
use std::alloc::{AllocError, Global};
use std::marker::Model;

/// A flow, shapes under ids that number them from 0, and the facts of each point. Its ids are always there, a fact's point has a target, and a source set gives no variable two shapes.
#[derive(Debug, Drop)]
pub struct Graph {
    alloc: Global,
    flow: Flow,
    truths: Table<ShapeId, Truth>,
    facts: Facts,
    counts: Counts,
}

impl Model for Graph {
    ghost use Rattle.typegraph.specs.Graphs.{GraphTables};
    ghost use Rattle.typegraph.specs.Kept.{IsKept};

    ghost Value = { GraphTables };

    ghost view = { λ g. record { flow = g.flow; truths = g.truths; facts = g.facts.rows } };

    ghost invariant = { λ g. IsKept (record { flow = g.flow; truths = g.truths; facts = g.facts.rows }) g.facts.given g.counts };
}

impl Graph {
    /// A graph with nothing in it. It takes no memory.
    pub fn new(alloc: Global) -> Graph
        ensures { result ≡ record { flow = record { vars = 0; points = []; contexts = [] }; truths = []; facts = [] } }
    {
        Graph {
            alloc,
            flow: Flow::new(alloc),
            truths: Table::new(alloc),
            facts: Facts::new(alloc),
            counts: Counts::new(),
        }
    }

    /// Its points, edges, variables and contexts.
    pub fn flow(&self) -> &Flow
        ensures flow { result.now ≡ self.now.flow }
        ensures valid { IsValid self.now }
    {
        &self.flow
    }

    pub fn add_var(&mut self) -> Result<VarId, PushFault>
        ensures added { OnOk result (self.new ≡ with_flow (with_var self.old.flow) self.old) }
        ensures numbered { IfOk result (λ id. id ≡ self.old.flow.vars) }
        ensures full { IsErrOf result PushFault.Full ↔ (self.old.flow.vars ≡ 2 ^ 32 - 1) }
        ensures refused { OnErr result (self.new ≡ self.old) }
    {
        if self.facts.vars() == u32::MAX as usize {
            return Err(PushFault::Full);
        }
        if self.facts.add_var().is_err() {
            return Err(PushFault::Memory);
        }
        match self.flow.add_var() {
            Ok(id) => Ok(id),
            Err(fault) => {
                self.facts.remove_var();
                Err(fault)
            }
        }
    }

    /// A new point, with no edge into it and no fact yet.
    pub fn add_point(&mut self, target: Option<VarId>, root: bool) -> Result<PointId, PushFault>
        requires { IsThere target self.old.flow.vars }
        ensures added { OnOk result (self.new ≡ with_row (with_point target root self.old.flow) self.old) }
        ensures numbered { IfOk result (λ id. id ≡ length self.old.flow.points) }
        ensures full { IsErrOf result PushFault.Full ↔ (length self.old.flow.points ≡ 2 ^ 32 - 1) }
        ensures refused { OnErr result (self.new ≡ self.old) }
    {
        if self.facts.points() == u32::MAX as usize {
            return Err(PushFault::Full);
        }
        if self.facts.add_point().is_err() {
            return Err(PushFault::Memory);
        }
        match self.flow.add_point(target, root) {
            Ok(id) => Ok(id),
            Err(fault) => {
                self.facts.remove_point();
                Err(fault)
            }
        }
    }

    /// The id of a context. One that is there already keeps its id, and takes no memory.
    pub fn add_context(
        &mut self,
        parent: Option<ContextId>,
        call: Option<PointId>,
        fun: Option<FunId>,
    ) -> Result<ContextId, PushFault>
        requires parent { IsThere parent (length self.old.flow.contexts) }
        requires call { IsThere call (length self.old.flow.points) }
        ensures numbered { IfOk result (λ id. slice_get self.new.flow.contexts id ≡ Some (record { parent = parent; call = call; fun = fun })) }
        ensures known { HasContext self.old.flow (record { parent = parent; call = call; fun = fun }) → IsOk result × (self.new ≡ self.old) }
        ensures fresh { (HasContext self.old.flow (record { parent = parent; call = call; fun = fun }) → ⊥) →
            OnOk result (self.new ≡ with_flow (with_context (record { parent = parent; call = call; fun = fun }) self.old.flow) self.old) }
        ensures full { IsErrOf result PushFault.Full ↔
            ((HasContext self.old.flow (record { parent = parent; call = call; fun = fun }) → ⊥) × (length self.old.flow.contexts ≡ 2 ^ 32 - 1)) }
        ensures refused { OnErr result (self.new ≡ self.old) }
    {
        match self.flow.add_context(parent, call, fun) {
            Ok(id) => {
                self.counts.add_context(id);
                Ok(id)
            }
            Err(fault) => Err(fault),
        }
    }

    /// Adds an edge, and answers whether it is new.
    pub fn add_edge(&mut self, edge: Edge) -> Result<bool, AllocError>
        requires from { edge.from < length self.old.flow.points }
        requires to { edge.to < length self.old.flow.points }
        requires asks { IsAskThere edge.asks self.old.flow.vars }
        requires shape { IsShapeAskThere edge.asks (length self.old.truths) }
        ensures fresh { result ≡ Ok true → (HasEdge self.old.flow edge → ⊥) × (self.new ≡ with_flow (with_edge edge self.old.flow) self.old) }
        ensures known { result ≡ Ok false → HasEdge self.old.flow edge × (self.new ≡ self.old) }
        ensures refused { OnErr result (self.new ≡ self.old) }
    {
        // The check finds the types within an edge only where a function names them.
        let _within: (Option<Ask>, Option<Test>) = (None, None);
        match self.flow.add_edge(edge) {
            Ok(true) => {
                self.counts.add_item();
                Ok(true)
            }
            Ok(false) => Ok(false),
            Err(fault) => Err(fault),
        }
    }

    pub fn add_shape(&mut self, truth: Truth) -> Result<ShapeId, PushFault>
        ensures added { OnOk result (self.new ≡ with_shape truth self.old) }
        ensures numbered { IfOk result (λ id. id ≡ length self.old.truths) }
        ensures full { IsErrOf result PushFault.Full ↔ (length self.old.truths ≡ 2 ^ 32 - 1) }
        ensures refused { OnErr result (self.new ≡ self.old) }
    {
        self.truths.push(truth)
    }

    /// Adds a fact, and answers whether it is new: no fact of the point has this shape and this source set.
    pub fn add_fact(
        &mut self,
        point: PointId,
        shape: ShapeId,
        source: &[Binding],
    ) -> Result<bool, FactFault>
        requires point { IsSome (target_of (slice_get self.old.flow.points point)) }
        requires shape { shape < length self.old.truths }
        requires source { All (IsBindingThere self.old.flow.vars (length self.old.truths)) source.now }
        ensures consistent { IfOk result (λ _. IsConsistent source.now) }
        ensures two_shapes { (var : ℕ) → result ≡ Err (FactFault.TwoShapes var) → IsFirstClash source.now var }
        ensures fresh { result ≡ Ok true → (HasFact self.old point shape source.now → ⊥) × IsWithFact self.old point shape source.now self.new }
        ensures known { result ≡ Ok false → HasFact self.old point shape source.now × (self.new ≡ self.old) }
        ensures has { OnOk result (HasFact self.new point shape source.now) }
        ensures refused { OnErr result (self.new ≡ self.old) }
    {
        match GoalMap::from_bindings(self.alloc, source) {
            Ok(Some(map)) => self.add_map(point, Fact { shape, source: map }),
            Ok(None) => Err(FactFault::TwoShapes(first_clash(source))),
            Err(_) => Err(FactFault::Memory),
        }
    }

    /// The facts of a point, in the order of adding. An unknown point has none.
    pub fn facts_at(&self, point: PointId) -> &[Fact]
        ensures facts { result.now ≡ row_of (slice_get self.now.facts point) }
        ensures valid { IsValid self.now }
    {
        self.facts.at(point)
    }

    /// Where the facts of one shape stand among those of a point, in their order. It looks at no other fact.
    pub fn places_of(&self, point: PointId, shape: ShapeId) -> &[usize]
        ensures { ArePlacesOf (row_of (slice_get self.now.facts point)) shape result.now }
    {
        self.facts.places_of(point, shape)
    }

    /// The shapes that some fact gives a variable, each once. An unknown variable has none.
    pub fn shapes_of(&self, var: VarId) -> &[ShapeId]
        ensures given { (shape : ℕ) → Contains result.now shape ↔ IsGiven self.now var shape }
        ensures once { AllPairs (λ a b. a ≡ b → ⊥) result.now }
    {
        self.facts.shapes_of(var)
    }

    /// The variable that a point's facts are about.
    pub fn target(&self, point: PointId) -> Option<VarId>
        ensures { result ≡ target_of (slice_get self.now.flow.points point) }
    {
        self.flow.target(point)
    }

    /// How many contexts, edges and facts there are, or 2^32 - 1 where there are more.
    pub fn item_count(&self) -> u32
        ensures few { item_total self.now < 2 ^ 32 → result ≡ item_total self.now }
        ensures many { 2 ^ 32 ≤ item_total self.now → result ≡ 2 ^ 32 - 1 }
    {
        self.counts.items()
    }

    /// What a shape's values are in a test.
    pub fn truth(&self, shape: ShapeId) -> Option<Truth>
        ensures { result ≡ slice_get self.now.truths shape }
    {
        match self.truths.get(shape) {
            Some(truth) => Some(*truth),
            None => None,
        }
    }

    // Whether one of the point's facts has this one's shape and source set.
    fn has_fact(&self, point: PointId, fact: &Fact) -> bool
        ensures { IsTrue result ↔ HasFact self.now point fact.now.shape fact.now.source }
    {
        let _ = fact.source.items();
        self.facts.has(point, fact)
    }

    // Adds a fact whose source set is a map.
    fn add_map(&mut self, point: PointId, fact: Fact) -> Result<bool, FactFault>
        requires point { IsSome (target_of (slice_get self.old.flow.points point)) }
        requires shape { fact.shape < length self.old.truths }
        requires source { All (IsBindingThere self.old.flow.vars (length self.old.truths)) fact.source }
        ensures fresh { result ≡ Ok true → (HasFact self.old point fact.shape fact.source → ⊥) × (self.new ≡ with_fact point fact self.old) }
        ensures known { result ≡ Ok false → HasFact self.old point fact.shape fact.source × (self.new ≡ self.old) }
        ensures no_clash { (var : ℕ) → result ≡ Err (FactFault.TwoShapes var) → ⊥ }
        ensures refused { OnErr result (self.new ≡ self.old) }
    {
        if self.has_fact(point, &fact) {
            return Ok(false);
        }
        match self.push_fact(point, fact) {
            Ok(()) => Ok(true),
            Err(_) => Err(FactFault::Memory),
        }
    }

    // Puts a new fact at a point.
    fn push_fact(&mut self, point: PointId, fact: Fact) -> Result<(), AllocError>
        requires point { IsSome (target_of (slice_get self.old.flow.points point)) }
        requires shape { fact.shape < length self.old.truths }
        requires source { All (IsBindingThere self.old.flow.vars (length self.old.truths)) fact.source }
        requires fresh { HasFact self.old point fact.shape fact.source → ⊥ }
        ensures pushed { OnOk result (self.new ≡ with_fact point fact self.old) }
        ensures refused { OnErr result (self.new ≡ self.old) }
    {
        let _ = fact.source.items();
        let var = self.flow.target(point).unwrap();
        self.facts.push(point, var, fact)?;
        self.counts.add_item();
        Ok(())
    }
}

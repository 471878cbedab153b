//! Graphs that grow, and how much they have.
ghost use Rattle.std.specs.Prelude.{◌≡◌, ◌↔◌, ◌<◌, length, slice_get, IsSome, IsTrue};
ghost use Rattle.std.specs.List.{All};
ghost use Rattle.flow_graph.specs.Flows.{target_of};
ghost use Rattle.flow_graph.specs.Validity.{IsThere, IsAskThere};
ghost use Rattle.typegraph.specs.Validity.{IsTestThere, IsShapeAskThere, IsBindingThere};

use flow_graph::{Ask, Edge, Test, Truth};
use place_ids::{Id, PointId, ShapeId, VarId};
use std::alloc::Global;
use typegraph::{Binding, Graph};

/// At most so many variables, shapes and points.
const MOST: u32 = 1_000_000;

/// A graph, how much it has, and whether something could not be added.
#[derive(Drop)]
pub struct Draft {
    graph: Graph,
    vars: u32,
    points: u32,
    shapes: u32,
    edges: u32,
    facts: u32,
    refused: bool,
    ghost vars_kept: { graph.flow.vars ≡ vars },
    ghost points_kept: { length graph.flow.points ≡ points },
    ghost shapes_kept: { length graph.truths ≡ shapes },
}

fn is_there(target: &Option<VarId>, vars: u32) -> bool
    ensures { IsTrue result ↔ IsThere target.now vars }
{
    match target {
        Some(var) => var.number() < vars,
        None => true,
    }
}

fn is_test_there(test: Test, shapes: u32) -> bool
    ensures { IsTrue result → IsTestThere test shapes }
{
    match test {
        Test::MayBeTrue => true,
        Test::MayBeFalse => true,
        Test::Is(shape) => shape.number() < shapes,
    }
}

fn is_ask_there(asks: &Option<Ask>, vars: u32, shapes: u32) -> bool
    ensures var { IsTrue result → IsAskThere asks.now vars }
    ensures shape { IsTrue result → IsShapeAskThere asks.now shapes }
{
    match asks {
        None => true,
        Some(ask) => ask.var.number() < vars && is_test_there(ask.test, shapes),
    }
}

fn is_binding_there(binding: &Binding, vars: u32, shapes: u32) -> bool
    ensures { IsTrue result → IsBindingThere vars shapes binding.now }
{
    binding.var.number() < vars && binding.shape.number() < shapes
}

fn are_there(list: &[Binding], vars: u32, shapes: u32) -> bool
    ensures { IsTrue result → All (IsBindingThere vars shapes) list.now }
{
    for binding in list {
        if !is_binding_there(binding, vars, shapes) {
            return false;
        }
    }
    true
}

impl Draft {
    /// A graph with nothing in it.
    pub fn new(alloc: Global) -> Draft {
        Draft {
            graph: Graph::new(alloc),
            vars: 0,
            points: 0,
            shapes: 0,
            edges: 0,
            facts: 0,
            refused: false,
        }
    }

    pub fn graph(&self) -> &Graph {
        &self.graph
    }

    pub fn points(&self) -> u32 {
        self.points
    }

    pub fn edges(&self) -> u32 {
        self.edges
    }

    pub fn facts(&self) -> u32 {
        self.facts
    }

    /// Whether all that was to be added is there, edges and facts as new ones.
    pub fn is_whole(&self) -> bool {
        !self.refused
    }

    pub fn add_var(&mut self) -> VarId {
        match self.new_var() {
            Some(var) => var,
            None => {
                self.refused = true;
                VarId::new(0)
            }
        }
    }

    pub fn add_shape(&mut self, truth: Truth) -> ShapeId {
        match self.new_shape(truth) {
            Some(shape) => shape,
            None => {
                self.refused = true;
                ShapeId::new(0)
            }
        }
    }

    pub fn add_point(&mut self, target: Option<VarId>, root: bool) -> PointId {
        match self.new_point(target, root) {
            Some(point) => point,
            None => {
                self.refused = true;
                PointId::new(0)
            }
        }
    }

    pub fn add_edge(&mut self, edge: Edge) {
        if self.takes_edge(&edge) && self.put_edge(edge) {
            self.edges = self.edges.saturating_add(1);
        } else {
            self.refused = true;
        }
    }

    pub fn add_fact(&mut self, point: PointId, shape: ShapeId, source: &[Binding]) {
        if self.takes_fact(point, shape, source) && self.put_fact(point, shape, source) {
            self.facts = self.facts.saturating_add(1);
        } else {
            self.refused = true;
        }
    }

    fn new_var(&mut self) -> Option<VarId> {
        if self.vars >= MOST {
            return None;
        }
        let Ok(var) = self.graph.add_var() else {
            return None;
        };
        self.vars += 1;
        Some(var)
    }

    fn new_shape(&mut self, truth: Truth) -> Option<ShapeId> {
        if self.shapes >= MOST {
            return None;
        }
        let Ok(shape) = self.graph.add_shape(truth) else {
            return None;
        };
        self.shapes += 1;
        Some(shape)
    }

    fn new_point(&mut self, target: Option<VarId>, root: bool) -> Option<PointId> {
        if self.points >= MOST || !is_there(&target, self.vars) {
            return None;
        }
        let Ok(point) = self.graph.add_point(target, root) else {
            return None;
        };
        self.points += 1;
        Some(point)
    }

    fn takes_edge(&self, edge: &Edge) -> bool
        ensures from { IsTrue result → edge.now.from < self.now.points }
        ensures to { IsTrue result → edge.now.to < self.now.points }
        ensures var { IsTrue result → IsAskThere edge.now.asks self.now.vars }
        ensures shape { IsTrue result → IsShapeAskThere edge.now.asks self.now.shapes }
    {
        edge.from.number() < self.points
            && edge.to.number() < self.points
            && is_ask_there(&edge.asks, self.vars, self.shapes)
    }

    // Whether the edge was new, and is added.
    fn put_edge(&mut self, edge: Edge) -> bool
        requires from { edge.from < self.old.points }
        requires to { edge.to < self.old.points }
        requires var { IsAskThere edge.asks self.old.vars }
        requires shape { IsShapeAskThere edge.asks self.old.shapes }
    {
        self.graph.add_edge(edge) == Ok(true)
    }

    fn takes_fact(&self, point: PointId, shape: ShapeId, source: &[Binding]) -> bool
        ensures point { IsTrue result → IsSome (target_of (slice_get self.now.graph.flow.points point)) }
        ensures shape { IsTrue result → shape < self.now.shapes }
        ensures source { IsTrue result → All (IsBindingThere self.now.vars self.now.shapes) source.now }
    {
        self.graph.target(point).is_some()
            && shape.number() < self.shapes
            && are_there(source, self.vars, self.shapes)
    }

    // Whether the fact was new, and is added.
    fn put_fact(&mut self, point: PointId, shape: ShapeId, source: &[Binding]) -> bool
        requires point { IsSome (target_of (slice_get self.old.graph.flow.points point)) }
        requires shape { shape < self.old.shapes }
        requires source { All (IsBindingThere self.old.vars self.old.shapes) source.now }
    {
        self.graph.add_fact(point, shape, source) == Ok(true)
    }
}

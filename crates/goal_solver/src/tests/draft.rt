//! Graphs that are made from sketches, and asked.
ghost use Rattle.std.specs.Prelude.{◌≡◌, ◌↔◌, ◌<◌, length, IsTrue};
ghost use Rattle.std.specs.List.{All};
ghost use Rattle.flow_graph.specs.Validity.{IsThere, IsAskThere};
ghost use Rattle.typegraph.specs.Validity.{IsTestThere, IsShapeAskThere, IsBindingThere};
ghost use Rattle.graph_walks.specs.Growth.{IsWithin};
ghost use Rattle.goal_solver.specs.Graphs.{world_of};

use crate::tests::sketch::{Given, Place, Question, Sketch, Way, Wish};
use crate::{Answer, Solver};
use flow_graph::{Ask, Edge, Steps, Test, Truth};
use place_ids::{Id, PointId, ShapeId, VarId};
use std::alloc::Global;
use std::marker::Brand;
use std::process::Abort;
use std::sync::ledger::{Blank, Ledger};
use typegraph::{Binding, FactFault, GoalMap, Graph};

/// A graph, and how much it has.
#[derive(Drop)]
pub struct Draft {
    alloc: Global,
    graph: Graph,
    vars: u32,
    points: u32,
    shapes: u32,
    ghost vars_kept: { graph.flow.vars ≡ vars },
    ghost points_kept: { length graph.flow.points ≡ points },
    ghost shapes_kept: { length graph.truths ≡ shapes },
}

/// What a solver tells: the answer, and whether more states than its budget are reached.
#[derive(Clone, Copy, Debug, PartialEq, Eq)]
pub struct Told {
    pub answer: Answer,
    pub heavy: bool,
}

fn id_of(number: Option<u32>) -> Option<VarId>
    ensures { result ≡ number }
{
    match number {
        Some(number) => Some(VarId::new(number)),
        None => None,
    }
}

fn is_there(target: Option<u32>, vars: u32) -> bool
    ensures { IsTrue result ↔ IsThere target vars }
{
    match target {
        Some(var) => var < vars,
        None => true,
    }
}

fn ask_of(wish: Wish) -> Ask {
    let (var, test) = match wish {
        Wish::True(var) => (var, Test::MayBeTrue),
        Wish::False(var) => (var, Test::MayBeFalse),
        Wish::Is(var, shape) => (var, Test::Is(ShapeId::new(shape))),
    };
    Ask {
        var: VarId::new(var),
        test,
    }
}

fn edge_of(way: Way) -> Edge {
    let (from, to, assigns, asks) = match way {
        Way::Plain(from, to) => (from, to, false, None),
        Way::Assigning(from, to) => (from, to, true, None),
        Way::Asking(from, to, wish) => (from, to, false, Some(ask_of(wish))),
        Way::AssigningAsking(from, to, wish) => (from, to, true, Some(ask_of(wish))),
    };
    Edge {
        from: PointId::new(from),
        to: PointId::new(to),
        assigns,
        asks,
    }
}

fn is_test_there(test: Test, shapes: u32) -> bool
    ensures { IsTrue result → IsTestThere test shapes }
{
    match test {
        Test::MayBeTrue => true,
        Test::MayBeFalse => true,
        Test::Is(shape) => shape.number() < shapes,
    }
}

fn is_ask_there(asks: &Option<Ask>, vars: u32, shapes: u32) -> bool
    ensures var { IsTrue result → IsAskThere asks.now vars }
    ensures shape { IsTrue result → IsShapeAskThere asks.now shapes }
{
    match asks {
        None => true,
        Some(ask) => ask.var.number() < vars && is_test_there(ask.test, shapes),
    }
}

fn is_binding_there(binding: &Binding, vars: u32, shapes: u32) -> bool
    ensures { IsTrue result → IsBindingThere vars shapes binding.now }
{
    binding.var.number() < vars && binding.shape.number() < shapes
}

fn are_there(list: &[Binding], vars: u32, shapes: u32) -> bool
    ensures { IsTrue result → All (IsBindingThere vars shapes) list.now }
{
    for binding in list {
        if !is_binding_there(binding, vars, shapes) {
            return false;
        }
    }
    true
}

fn bindings(rt: &impl Abort, alloc: Global, pairs: &[(u32, u32)]) -> Vec<Binding> {
    let mut list = Vec::new(alloc);
    for (var, shape) in pairs {
        let binding = Binding {
            var: VarId::new(*var),
            shape: ShapeId::new(*shape),
        };
        list.push(binding).expect(rt, "memory");
    }
    list
}

fn goals_of(rt: &impl Abort, alloc: Global, pairs: &[(u32, u32)]) -> GoalMap {
    let list = bindings(rt, alloc, pairs);
    let goals = GoalMap::from_bindings(alloc, list.as_slice()).expect(rt, "memory");
    goals.expect(rt, "no two shapes")
}

impl Draft {
    fn new(alloc: Global) -> Draft {
        Draft {
            alloc,
            graph: Graph::new(alloc),
            vars: 0,
            points: 0,
            shapes: 0,
        }
    }

    fn add_var(&mut self, rt: &impl Abort) {
        assert!(rt; self.vars < 100);
        let _ = self.graph.add_var().expect(rt, "memory");
        self.vars += 1;
    }

    fn add_shape(&mut self, rt: &impl Abort, truth: Truth) {
        assert!(rt; self.shapes < 100);
        let _ = self.graph.add_shape(truth).expect(rt, "memory");
        self.shapes += 1;
    }

    fn add_point(&mut self, rt: &impl Abort, target: Option<u32>, root: bool) {
        assert!(rt; self.points < 100);
        assert!(rt; is_there(target, self.vars));
        let _ = self
            .graph
            .add_point(id_of(target), root)
            .expect(rt, "memory");
        self.points += 1;
    }

    fn add_place(&mut self, rt: &impl Abort, place: Place) {
        match place {
            Place::Root(target) => self.add_point(rt, target, true),
            Place::Inner(target) => self.add_point(rt, target, false),
        }
    }

    fn add_edge(&mut self, rt: &impl Abort, edge: Edge) {
        assert!(rt; edge.from.number() < self.points);
        assert!(rt; edge.to.number() < self.points);
        assert!(rt; is_ask_there(&edge.asks, self.vars, self.shapes));
        let fresh = self.graph.add_edge(edge).expect(rt, "memory");
        assert!(rt; fresh);
    }

    /// Adds a fact, and answers whether it is new.
    pub fn add_fact(&mut self, rt: &impl Abort, fact: &Given) -> Result<bool, FactFault>
        ensures { IsWithin (world_of self.old.graph) (world_of self.new.graph) }
    {
        let Given(at, shape, pairs) = *fact;
        let source = bindings(rt, self.alloc, pairs);
        let point = PointId::new(at);
        assert!(rt; self.graph.target(point).is_some());
        assert!(rt; shape < self.shapes);
        assert!(rt; are_there(source.as_slice(), self.vars, self.shapes));
        self.graph
            .add_fact(point, ShapeId::new(shape), source.as_slice())
    }

    fn add_vars(&mut self, rt: &impl Abort, count: u32) {
        for _ in 0..count {
            self.add_var(rt);
        }
    }

    fn add_shapes(&mut self, rt: &impl Abort, truths: &[Truth]) {
        for truth in truths {
            self.add_shape(rt, *truth);
        }
    }

    fn add_places(&mut self, rt: &impl Abort, places: &[Place]) {
        for place in places {
            self.add_place(rt, *place);
        }
    }

    fn add_ways(&mut self, rt: &impl Abort, ways: &[Way]) {
        for way in ways {
            self.add_edge(rt, edge_of(*way));
        }
    }

    fn add_facts(&mut self, rt: &impl Abort, facts: &[Given]) {
        for fact in facts {
            assert_eq!(rt; self.add_fact(rt, fact), Ok(true));
        }
    }

    /// The graph of a sketch.
    pub fn of(rt: &impl Abort, alloc: Global, sketch: &Sketch) -> Draft {
        let mut draft = Draft::new(alloc);
        draft.add_vars(rt, sketch.vars);
        draft.add_shapes(rt, sketch.shapes);
        draft.add_places(rt, sketch.places);
        draft.add_ways(rt, sketch.ways);
        draft.add_facts(rt, sketch.facts);
        draft
    }

    fn told_by<L: Ledger>(
        &self,
        rt: &impl Abort,
        blank: Blank,
        budget: u32,
        point: PointId,
        goals: &GoalMap,
    ) -> Told
        requires { (blank.name ≡ L.name) × (blank.parts ≡ L.parts) × (0 < L.parts) }
    {
        let mut steps: Steps<L> = Steps::new(blank);
        let mut solver = Solver::new(self.alloc, budget);
        let answer = solver
            .ask(&self.graph, point, goals, &mut steps)
            .expect(rt, "memory");
        let heavy = solver
            .heavy(&self.graph, point, goals, &mut steps)
            .expect(rt, "memory");
        Told { answer, heavy }
    }

    /// What a new solver of that budget tells.
    pub fn told(&self, rt: &impl Abort, budget: u32, question: &Question) -> Told {
        let Question(at, pairs, _, _) = *question;
        let goals = goals_of(rt, self.alloc, pairs);
        let point = PointId::new(at);
        self.told_by::<Brand>(rt, Blank::new(1), budget, point, &goals)
    }

    fn ask_around_by<L: Ledger>(
        &mut self,
        rt: &impl Abort,
        blank: Blank,
        budget: u32,
        question: &Question,
        fact: &Given,
    ) -> [Answer; 2]
        requires { (blank.name ≡ L.name) × (blank.parts ≡ L.parts) × (0 < L.parts) }
    {
        let Question(at, pairs, _, _) = *question;
        let goals = goals_of(rt, self.alloc, pairs);
        let point = PointId::new(at);
        let mut steps: Steps<L> = Steps::new(blank);
        let mut solver = Solver::new(self.alloc, budget);
        let before = solver
            .ask(&self.graph, point, &goals, &mut steps)
            .expect(rt, "memory");
        assert_eq!(rt; self.add_fact(rt, fact), Ok(true));
        solver.grown();
        let after = solver
            .ask(&self.graph, point, &goals, &mut steps)
            .expect(rt, "memory");
        [before, after]
    }

    /// What one solver of that budget answers before the fact is added, and after.
    pub fn ask_around(
        &mut self,
        rt: &impl Abort,
        budget: u32,
        question: &Question,
        fact: &Given,
    ) -> [Answer; 2] {
        self.ask_around_by::<Brand>(rt, Blank::new(1), budget, question, fact)
    }
}

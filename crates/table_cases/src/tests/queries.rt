//! Queries of a small graph, in which `x` gets one of two shapes at its first point, and `y` is then assigned from `x`.
ghost use Rattle.std.specs.Prelude.{◌≡◌, ◌<◌, length, slice_get, IsTrue, IsSome, IfSome};
ghost use Rattle.graph_walks.specs.Worlds.{AllGiven};
ghost use Rattle.flow_graph.specs.Flows.{target_of};
ghost use Rattle.typegraph.specs.Graphs.{IsGiven};
ghost use Rattle.typegraph.specs.Maps.{look};
ghost use Rattle.goal_solver.specs.Graphs.{world_of};

use flow_graph::{Edge, Steps, Truth};
use goal_solver::Solver;
use graph_queries::{choices, goals_of, is_seen};
use place_ids::{Id, PointId, ShapeId, VarId};
use sqlite_items::Items;
use std::alloc::Global;
use std::marker::Brand;
use std::process::Abort;
use std::sync::ledger::{Blank, Ledger};
use typegraph::{Binding, GoalMap, Graph};

// The variable that a point's facts are about.
fn target(graph: &Graph, point: PointId) -> Option<VarId>
    ensures { IfSome result (λ var. var < graph.now.flow.vars) }
{
    graph.flow().target(point)
}

fn has_target(graph: &Graph, point: PointId) -> bool
    ensures there { IsTrue result → point < length graph.now.flow.points }
    ensures target { IsTrue result → IsSome (target_of (slice_get graph.now.flow.points point)) }
{
    graph.target(point).is_some()
}

fn has_shape(graph: &Graph, shape: ShapeId) -> bool
    ensures { IsTrue result → shape < length graph.now.truths }
{
    graph.truth(shape).is_some()
}

// Whether some fact gives the variable the shape.
fn is_given(graph: &Graph, var: VarId, shape: ShapeId) -> bool
    ensures { IsTrue result → IsGiven graph.now var shape }
{
    graph.shapes_of(var).contains(&shape)
}

// A variable, and a point that is about it.
fn add_place(rt: &impl Abort, graph: &mut Graph, root: bool) {
    let var = graph.add_var().expect(rt, "memory");
    let _point = graph.add_point(Some(var), root).expect(rt, "memory");
}

fn add_shape(rt: &impl Abort, graph: &mut Graph) {
    let _shape = graph.add_shape(Truth::Both).expect(rt, "memory");
}

// `x` gets the shape, whatever holds.
fn add_given(rt: &impl Abort, graph: &mut Graph, number: u32) {
    let (point, shape) = (PointId::new(0), ShapeId::new(number));
    assert!(rt; has_target(graph, point));
    assert!(rt; has_shape(graph, shape));
    let _fresh = graph.add_fact(point, shape, &[]).expect(rt, "a fact");
}

// `y` gets the shape where `x` has it.
fn add_copied(rt: &impl Abort, graph: &mut Graph, number: u32) {
    let (point, shape) = (PointId::new(1), ShapeId::new(number));
    let var = target(graph, PointId::new(0)).expect(rt, "a target");
    assert!(rt; has_target(graph, point));
    assert!(rt; has_shape(graph, shape));
    let source = [Binding { var, shape }];
    let _fresh = graph.add_fact(point, shape, &source).expect(rt, "a fact");
}

// From a point to the next.
fn add_edge(rt: &impl Abort, graph: &mut Graph, number: u32, assigns: bool) {
    let from = PointId::new(number);
    let to = PointId::new(number.saturating_add(1));
    assert!(rt; has_target(graph, from));
    assert!(rt; has_target(graph, to));
    let edge = Edge {
        from,
        to,
        assigns,
        asks: None,
    };
    let _fresh = graph.add_edge(edge).expect(rt, "memory");
}

fn add_places(rt: &impl Abort, graph: &mut Graph) {
    add_place(rt, graph, true);
    add_place(rt, graph, false);
    add_place(rt, graph, false);
    add_place(rt, graph, false);
    add_edge(rt, graph, 0, true);
    add_edge(rt, graph, 1, true);
    add_edge(rt, graph, 2, false);
}

fn add_facts(rt: &impl Abort, graph: &mut Graph) {
    add_shape(rt, graph);
    add_shape(rt, graph);
    add_given(rt, graph, 0);
    add_given(rt, graph, 1);
    add_copied(rt, graph, 0);
    add_copied(rt, graph, 1);
}

// Four points in a row, of which the first two assign `x` and `y`, and two shapes.
fn small_graph(rt: &impl Abort, alloc: Global) -> Graph {
    let mut graph = Graph::new(alloc);
    add_places(rt, &mut graph);
    add_facts(rt, &mut graph);
    graph
}

fn seen_by<L: Ledger>(
    rt: &impl Abort,
    blank: Blank,
    alloc: Global,
    graph: &Graph,
    budget: u32,
    goals: &GoalMap,
) -> bool
    requires blank { (blank.name ≡ L.name) × (blank.parts ≡ L.parts) × (0 < L.parts) }
    requires given { AllGiven (world_of graph.now) (look goals.now) }
{
    let mut steps: Steps<L> = Steps::new(blank);
    let mut solver = Solver::new(alloc, budget);
    is_seen(graph, &mut solver, PointId::new(3), goals, &mut steps).expect(rt, "memory")
}

// Whether these shapes of `x` and `y` are seen at the last point.
fn is_seen_last(
    rt: &impl Abort,
    alloc: Global,
    graph: &Graph,
    budget: u32,
    numbers: (u32, u32),
) -> bool {
    let (x, y) = (VarId::new(0), VarId::new(1));
    let (one, other) = (ShapeId::new(numbers.0), ShapeId::new(numbers.1));
    assert!(rt; is_given(graph, x, one));
    assert!(rt; is_given(graph, y, other));
    let goals = goals_of(alloc, &[x, y], &[one, other])
        .expect(rt, "memory")
        .expect(rt, "no two shapes");
    seen_by::<Brand>(rt, Blank::new(1), alloc, graph, budget, &goals)
}

// The number of a shape in a choice, or 99.
fn chosen(all: &[Items<ShapeId>], choice: usize, place: usize) -> u32 {
    match all.get(choice) {
        Some(shapes) => shape_number(shapes.as_slice(), place),
        None => 99,
    }
}

fn shape_number(shapes: &[ShapeId], place: usize) -> u32 {
    match shapes.get(place) {
        Some(shape) => shape.number(),
        None => 99,
    }
}

// How many pairs of the map give the variable the shape.
fn pair_count(goals: &GoalMap, var: u32, shape: u32) -> u32 {
    let mut count = 0u32;
    for pair in goals.items() {
        if pair.var.number() == var && pair.shape.number() == shape {
            count = count.saturating_add(1);
        }
    }
    count
}

#[test]
fn each_shape_is_chosen_beside_each(rt: HostRuntime) {
    let alloc = rt.alloc();
    let graph = small_graph(&rt, alloc);
    let all = choices(alloc, &graph, &[VarId::new(0), VarId::new(1)]).expect(&rt, "memory");
    assert_eq!(rt; all.len(), 4);
    assert_eq!(rt; chosen(all.as_slice(), 0, 0), 0);
    assert_eq!(rt; chosen(all.as_slice(), 0, 1), 0);
    assert_eq!(rt; chosen(all.as_slice(), 3, 0), 1);
    assert_eq!(rt; chosen(all.as_slice(), 3, 1), 1);
    assert_eq!(rt; chosen(all.as_slice(), 3, 2), 99);
}

#[test]
fn nothing_has_one_choice(rt: HostRuntime) {
    let graph = Graph::new(rt.alloc());
    let all = choices(rt.alloc(), &graph, &[]).expect(&rt, "memory");
    assert_eq!(rt; all.len(), 1);
    assert_eq!(rt; chosen(all.as_slice(), 0, 0), 99);
    let none = choices(rt.alloc(), &graph, &[VarId::new(0)]).expect(&rt, "memory");
    assert_eq!(rt; none.len(), 0);
}

#[test]
fn a_choice_is_seen_where_both_shapes_are_one(rt: HostRuntime) {
    let alloc = rt.alloc();
    let graph = small_graph(&rt, alloc);
    assert!(rt; is_seen_last(&rt, alloc, &graph, 4, (0, 0)));
    assert!(rt; is_seen_last(&rt, alloc, &graph, 4, (1, 1)));
    assert!(rt; !is_seen_last(&rt, alloc, &graph, 4, (0, 1)));
    assert!(rt; !is_seen_last(&rt, alloc, &graph, 4, (1, 0)));
}

#[test]
fn a_query_that_is_given_up_is_seen(rt: HostRuntime) {
    let alloc = rt.alloc();
    let graph = small_graph(&rt, alloc);
    assert!(rt; is_seen_last(&rt, alloc, &graph, 1, (0, 1)));
    assert!(rt; !is_seen_last(&rt, alloc, &graph, 2, (0, 1)));
}

#[test]
fn a_variable_gets_one_shape(rt: HostRuntime) {
    let alloc = rt.alloc();
    let (x, y) = (VarId::new(0), VarId::new(1));
    let (one, other) = (ShapeId::new(0), ShapeId::new(1));
    let two = goals_of(alloc, &[x, x], &[one, other]).expect(&rt, "memory");
    assert!(rt; two.is_none());
    let goals = goals_of(alloc, &[y, x, y], &[other, one, other])
        .expect(&rt, "memory")
        .expect(&rt, "no two shapes");
    assert_eq!(rt; goals.items().len(), 2);
    assert_eq!(rt; pair_count(&goals, 0, 0), 1);
    assert_eq!(rt; pair_count(&goals, 1, 1), 1);
}

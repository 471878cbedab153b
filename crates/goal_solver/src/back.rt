//! The back states of a state are met.
ghost use Rattle.std.specs.Prelude.{ℕ, ◌≡◌, ◌+◌, ◌<◌, ◌++◌, None, Some, Ok, true, false, IfOk, length, slice_get};
ghost use Rattle.std.specs.List.{Contains};
ghost use Rattle.typegraph.specs.Validity.{IsValid};
ghost use Rattle.goal_solver.specs.Graphs.{world_of, edge_as};
ghost use Rattle.goal_solver.specs.Searches.{IsExtended, AreKnown, AreBacksKnown, IsFull};
ghost use Rattle.goal_solver.specs.Backs.{may_be_true, may_be_false, passes_test, is_var, AreAsked, wanted_list, IsBefore, BySource, ByFact, look_at, assigned_by, IsOverEdge, IsBackOf};

use crate::search::Search;
use crate::state::State;
use crate::state_set::StateSet;
use flow_graph::{Ask, Edge, Steps, Test, Truth};
use place_ids::{PointId, ShapeId, VarId};
use smallvec::SmallVec;
use std::alloc::{AllocError, Global};
use std::sync::ledger::Ledger;
use typegraph::{Binding, Fact, GoalMap, Graph};

/// The pairs that an edge asks for. Up to two of them take no memory.
type Pairs = SmallVec<Option<Binding>, 2>;

fn may_be_true(truth: Option<Truth>) -> bool
    ensures { result ≡ may_be_true truth }
{
    match truth {
        None => false,
        Some(Truth::Yes) => true,
        Some(Truth::No) => false,
        Some(Truth::Both) => true,
    }
}

fn may_be_false(truth: Option<Truth>) -> bool
    ensures { result ≡ may_be_false truth }
{
    match truth {
        None => false,
        Some(Truth::Yes) => false,
        Some(Truth::No) => true,
        Some(Truth::Both) => true,
    }
}

fn passes(graph: &Graph, test: Test, shape: ShapeId) -> bool
    ensures { result ≡ passes_test graph.now.truths test shape }
{
    match test {
        Test::MayBeTrue => may_be_true(graph.truth(shape)),
        Test::MayBeFalse => may_be_false(graph.truth(shape)),
        Test::Is(wanted) => shape == wanted,
    }
}

fn is_var(var: &Option<VarId>, other: VarId) -> bool
    ensures { result ≡ is_var var.now other }
{
    match var {
        Some(one) => *one == other,
        None => false,
    }
}

// The one answer where an edge asks nothing.
fn no_pair(alloc: Global, graph: &Graph) -> Result<Pairs, AllocError>
    ensures { IfOk result (λ pairs. AreAsked graph.now None pairs.items) }
{
    let mut pairs = SmallVec::new(alloc);
    pairs.push(None)?;
    Ok(pairs)
}

// Each shape that some fact gives the variable, and that passes.
fn passing_pairs(alloc: Global, graph: &Graph, ask: &Ask) -> Result<Pairs, AllocError>
    ensures { IfOk result (λ pairs. AreAsked graph.now (Some ask.now) pairs.items) }
{
    let mut pairs = SmallVec::new(alloc);
    for shape in graph.shapes_of(ask.var) {
        if passes(graph, ask.test, *shape) {
            pairs.push(Some(Binding {
                var: ask.var,
                shape: *shape,
            }))?;
        }
    }
    Ok(pairs)
}

// The pairs that an edge asks for.
fn asked_pairs(alloc: Global, graph: &Graph, edge: &Edge) -> Result<Pairs, AllocError>
    ensures { IfOk result (λ pairs. AreAsked graph.now edge.now.asks pairs.items) }
{
    match &edge.asks {
        None => no_pair(alloc, graph),
        Some(ask) => passing_pairs(alloc, graph, ask),
    }
}

// The goals but for the target's, the source set, and the asked pair. Up to eight of them take no memory.
fn wanted(
    alloc: Global,
    target: &Option<VarId>,
    goals: &[Binding],
    source: &[Binding],
    pair: Option<Binding>,
) -> Result<SmallVec<Binding, 8>, AllocError>
    ensures { IfOk result (λ list. list.items ≡ wanted_list target.now goals.now source.now pair) }
{
    let mut list = SmallVec::new(alloc);
    for goal in goals {
        if !is_var(target, goal.var) {
            list.push(*goal)?;
        }
    }
    list.extend_from_slice(source)?;
    if let Some(binding) = pair {
        list.push(binding)?;
    }
    Ok(list)
}

// Meets the state that one source set and one pair give. This call and those below answer false where the search has more states than its limit.
fn meet_one(
    from: PointId,
    target: &Option<VarId>,
    goals: &[Binding],
    source: &[Binding],
    pair: Option<Binding>,
    light: &StateSet,
    search: &mut Search,
) -> Result<bool, AllocError>
    requires { length search.old.parents.items ≡ length search.old.states }
    ensures extended { IfOk result (λ _. IsExtended light.now (IsBefore from target.now goals.now source.now pair) search.old search.new) }
    ensures met { result ≡ Ok true → AreKnown (IsBefore from target.now goals.now source.now pair) search.new }
    ensures full { result ≡ Ok false → IsFull search.new }
{
    let list = wanted(search.alloc, target, goals, source, pair)?;
    match GoalMap::from_bindings(search.alloc, list.as_slice())? {
        None => Ok(true),
        Some(goals) => search.meet(light, State { point: from, goals }),
    }
}

// Meets the states that one source set and each of the pairs give.
fn meet_with_source(
    from: PointId,
    target: &Option<VarId>,
    goals: &[Binding],
    pairs: &[Option<Binding>],
    source: &[Binding],
    light: &StateSet,
    search: &mut Search,
) -> Result<bool, AllocError>
    requires { length search.old.parents.items ≡ length search.old.states }
    ensures extended { IfOk result (λ _. IsExtended light.now (BySource from target.now goals.now pairs.now source.now) search.old search.new) }
    ensures met { result ≡ Ok true → AreKnown (BySource from target.now goals.now pairs.now source.now) search.new }
    ensures full { result ≡ Ok false → IsFull search.new }
{
    for pair in pairs {
        if !meet_one(from, target, goals, source, *pair, light, search)? {
            return Ok(false);
        }
    }
    Ok(true)
}

// Meets the states that the facts at these places give, which are those of the wanted shape.
fn meet_with_facts(
    from: PointId,
    target: &Option<VarId>,
    goals: &[Binding],
    pairs: &[Option<Binding>],
    facts: &[Fact],
    places: &[usize],
    light: &StateSet,
    search: &mut Search,
) -> Result<bool, AllocError>
    requires even { length search.old.parents.items ≡ length search.old.states }
    requires places { (place : ℕ) → Contains places.now place → place < length facts.now }
    ensures extended { IfOk result (λ _. IsExtended light.now (ByFact from target.now goals.now pairs.now facts.now places.now) search.old search.new) }
    ensures met { result ≡ Ok true → AreKnown (ByFact from target.now goals.now pairs.now facts.now places.now) search.new }
    ensures full { result ≡ Ok false → IsFull search.new }
{
    for place in places {
        let source = facts[*place].source.items();
        if !meet_with_source(from, target, goals, pairs, source, light, search)? {
            return Ok(false);
        }
    }
    Ok(true)
}

fn goal_of(goals: &GoalMap, var: &Option<VarId>) -> Option<ShapeId>
    ensures { result ≡ look_at goals.now var.now }
{
    match var {
        None => None,
        Some(var) => goals.get(*var),
    }
}

fn assigned(graph: &Graph, edge: &Edge) -> Option<VarId>
    ensures { result ≡ assigned_by graph.now edge.now }
{
    if edge.assigns {
        graph.target(edge.from)
    } else {
        None
    }
}

// Meets the back states over an edge.
fn meet_over_edge(
    graph: &Graph,
    goals: &GoalMap,
    edge: &Edge,
    light: &StateSet,
    search: &mut Search,
) -> Result<bool, AllocError>
    requires valid { IsValid graph.now }
    requires even { length search.old.parents.items ≡ length search.old.states }
    requires edge { Contains (world_of graph.now).edges (edge_as edge.now) }
    ensures extended { IfOk result (λ _. IsExtended light.now (IsOverEdge graph.now goals.now edge.now) search.old search.new) }
    ensures met { result ≡ Ok true → AreKnown (IsOverEdge graph.now goals.now edge.now) search.new }
    ensures full { result ≡ Ok false → IsFull search.new }
{
    let target = assigned(graph, edge);
    let asked = asked_pairs(search.alloc, graph, edge)?;
    let (from, list, pairs) = (edge.from, goals.items(), asked.as_slice());
    match goal_of(goals, &target) {
        None => meet_with_source(from, &target, list, pairs, &[], light, search),
        Some(shape) => {
            let (facts, places) = (graph.facts_at(from), graph.places_of(from, shape));
            meet_with_facts(from, &target, list, pairs, facts, places, light, search)
        }
    }
}

/// Meets the back states of a state, for one step. It answers false where the search has more states than its limit.
pub fn meet_backs<L: Ledger>(
    graph: &Graph,
    state: &State,
    light: &StateSet,
    search: &mut Search,
    steps: &mut Steps<L>,
) -> Result<bool, AllocError>
    requires { length search.old.parents.items ≡ length search.old.states }
    ensures cost { steps.new ≡ steps.old + 1 }
    ensures extended { IfOk result (λ _. IsExtended light.now (IsBackOf graph.now state.now) search.old search.new) }
    ensures met { result ≡ Ok true → AreBacksKnown graph.now state.now search.new }
    ensures full { result ≡ Ok false → IsFull search.new }
{
    let _goals = state.goals.items();
    for edge in graph.flow().into(state.point, steps) {
        if !meet_over_edge(graph, &state.goals, edge, light, search)? {
            return Ok(false);
        }
    }
    Ok(true)
}

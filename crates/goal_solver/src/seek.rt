//! The search backwards, depth first: each state is met once.
ghost use Rattle.std.specs.Prelude.{Bool, [], ◌≡◌, ◌↔◌, ◌+◌, ◌<◌, ◌≤◌, ◌++◌, ◌⊎◌, ℕ, Some, Ok, true, false, List, length, map, slice_get, IsTrue, IfOk, OnOk, if◌then◌else◌};
ghost use Rattle.std.specs.List.{Contains};
ghost use Rattle.graph_walks.specs.Worlds.{nothing};
ghost use Rattle.graph_walks.specs.Walks.{Visible};
ghost use Rattle.graph_walks.specs.Backs.{Heavy};
ghost use Rattle.typegraph.specs.Maps.{look};
ghost use Rattle.goal_solver.specs.declared.state.State.{State};
ghost use Rattle.goal_solver.specs.Graphs.{world_of};
ghost use Rattle.goal_solver.specs.States.{state_of, IsMet};
ghost use Rattle.goal_solver.specs.Backs.{IsBackOf};
ghost use Rattle.goal_solver.specs.Searches.{IsClosed, AreVisible, HaveNoRoot, IsWhole, IsRootState, IsExtended, AreBacksKnown, IsFull, IsRoomMade};

use crate::back::meet_backs;
use crate::search::Search;
use crate::state::State;
use crate::state_set::StateSet;
use flow_graph::Steps;
use std::alloc::{AllocError, Global};
use std::sync::ledger::Ledger;
use typegraph::{Binding, Graph};

/// How a search ended.
#[derive(Debug, Drop)]
pub enum Found {
    /// At a root with nothing wanted, or at a state that is known to be visible: the states on the way to it.
    Way(StateSet),
    /// With more states than the limit.
    Many,
    /// With every state that is reached, but for those of the list of light states where it was used.
    Whole { states: StateSet, with_list: bool },
}

fn is_empty(list: &[Binding]) -> bool
    ensures { IsTrue result ↔ list.now ≡ [] }
{
    list.is_empty()
}

fn is_root(graph: &Graph, state: &State) -> bool
    ensures { IsTrue result ↔ IsRootState graph.now state.now }
{
    graph.flow().root(state.point) && is_empty(state.goals.items())
}

// Whether the search ends at the state: nothing is wanted at a root, or it is known to be visible.
fn is_aim(graph: &Graph, yes: &StateSet, state: &State, roots: bool) -> bool
    ensures yes { IsTrue result → IsTrue roots × (IsRootState graph.now state.now ⊎ IsMet yes.now state.now) }
    ensures no { result ≡ false → IsTrue roots → IsRootState graph.now state.now → ⊥ }
{
    roots && (is_root(graph, state) || yes.has(state))
}

// Meets the back states of the state at a place.
fn expand<L: Ledger>(
    graph: &Graph,
    light: &StateSet,
    search: &mut Search,
    place: usize,
    steps: &mut Steps<L>,
) -> Result<bool, AllocError>
    requires within { place < length search.old.states }
    requires even { length search.old.parents.items ≡ length search.old.states }
    ensures cost { steps.new ≤ steps.old + 1 }
    ensures step { IfOk result (λ _. steps.new ≡ steps.old + 1) }
    ensures extended { IfOk result (λ _. (x : State) → slice_get search.old.states place ≡ Some x → IsExtended light.now (IsBackOf graph.now x) (record search.old { parent = place }) search.new) }
    ensures met { result ≡ Ok true → (x : State) → slice_get search.old.states place ≡ Some x → AreBacksKnown graph.now x search.new }
    ensures full { result ≡ Ok false → IsFull search.new }
{
    search.parent = place;
    let state = search.states.get(place).copy()?;
    meet_backs(graph, &state, light, search, steps)
}

// Leaves the list where it and the new states are too many together.
fn make_room(search: &mut Search, room: usize) -> Result<(), AllocError>
    requires { length search.old.parents.items ≡ length search.old.states }
    ensures { OnOk result (IsRoomMade room search.old search.new) }
{
    if search.uses_list && search.states.len() > room {
        search.leave_list()?;
    }
    Ok(())
}

fn whole_of(search: Search) -> Found
    ensures { result ≡ Found.Whole search.states search.uses_list }
{
    Found::Whole {
        states: search.states,
        with_list: search.uses_list,
    }
}

/// Searches the states that are reached from a query, in at most `budget` steps. Roots and states known to be visible end it only where `roots` says so;
/// where it doesn't, states of the list of light states are not looked behind while the list and the new states are at most budget many.
pub fn seek<L: Ledger>(
    alloc: Global,
    graph: &Graph,
    query: State,
    budget: u32,
    roots: bool,
    yes: &StateSet,
    light: &StateSet,
    steps: &mut Steps<L>,
) -> Result<Found, AllocError>
    requires yes { AreVisible graph.now yes.now }
    requires light { IsClosed graph.now light.now }
    requires few { length light.now ≤ budget }
    ensures cost { steps.new ≤ steps.old + budget }
    ensures way { (way : List State) → result ≡ Ok (Found.Way way) → IsTrue roots × IsMet way query × AreVisible graph.now way }
    ensures many { result ≡ Ok Found.Many → Heavy (world_of graph.now) query.point (look query.goals) budget }
    ensures whole { (states : List State) (with_list : Bool) → result ≡ Ok (Found.Whole states with_list) → IsWhole graph.now query budget (if with_list then states ++ light.now else states) }
    ensures none { (states : List State) (with_list : Bool) → result ≡ Ok (Found.Whole states with_list) → IsTrue roots → (with_list ≡ false) × HaveNoRoot graph.now states }
{
    let limit = budget as usize;
    let room = limit - light.len();
    let mut search = Search::new(alloc, query, limit, !roots)?;
    make_room(&mut search, room)?;
    while search.states.len() <= limit {
        let Some(place) = search.waiting.pop() else {
            return Ok(whole_of(search));
        };
        if is_aim(graph, yes, search.states.get(place), roots) {
            return Ok(Found::Way(search.way(place)?));
        }
        if !expand(graph, light, &mut search, place, steps)? {
            return Ok(Found::Many);
        }
        make_room(&mut search, room)?;
    }
    Ok(Found::Many)
}

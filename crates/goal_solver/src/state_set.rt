//! Sets of states, in the order in which they came.
ghost use Rattle.std.specs.Prelude.{◌≡◌, ◌↔◌, ◌<◌, ◌≤◌, Some, [], length, slice_get, IsTrue, IfOk, OnOk, OnErr};
ghost use Rattle.std.specs.List.{Contains};
ghost use Rattle.typegraph.specs.Maps.{IsRising};
ghost use Rattle.goal_solver.specs.declared.state.State.{State};
ghost use Rattle.goal_solver.specs.States.{IsMet, IsAdded, IsUnion, AreApart};

use crate::state::State;
use indexmap::IndexSet;
use std::alloc::{AllocError, Global};
use std::marker::Model;

/// States, none of them twice. Contracts see the list of them.
#[derive(Debug, Drop)]
pub struct StateSet {
    states: IndexSet<State>,
}

impl Model for StateSet {
    ghost use Rattle.std.specs.Prelude.{List};
    ghost use Rattle.goal_solver.specs.declared.state.State.{State};
    ghost use Rattle.goal_solver.specs.States.{AreStates};

    ghost Value = { List State };

    ghost view = { λ s. s.states.keys };

    ghost invariant = { λ s. AreStates s.states.keys };
}

impl StateSet {
    /// A set with nothing in it. It takes no memory.
    pub fn new(alloc: Global) -> StateSet
        ensures { result ≡ [] }
    {
        StateSet {
            states: IndexSet::new(alloc),
        }
    }

    pub fn len(&self) -> usize
        ensures len { result ≡ length self.now }
        ensures apart { AreApart self.now }
    {
        self.states.len()
    }

    /// The state at a place.
    pub fn get(&self, place: usize) -> &State
        requires { place < length self.now }
        ensures { slice_get self.now place ≡ Some result.now }
    {
        &self.states[place]
    }

    pub fn has(&self, state: &State) -> bool
        ensures { IsTrue result ↔ IsMet self.now state.now }
    {
        // The goals of each state stand in order: the proof cites it of this one.
        let _goals = state.goals.items();
        self.states.contains(state)
    }

    /// Adds a state, and answers whether it is new.
    pub fn add(&mut self, state: State) -> Result<bool, AllocError>
        ensures { IfOk result (λ fresh. IsAdded self.old state fresh self.new) }
    {
        let _goals = state.goals.items();
        Ok(self.states.insert(state)?)
    }

    /// Adds all states of another set, or none.
    pub fn absorb(&mut self, other: StateSet) -> Result<(), AllocError>
        ensures all { OnOk result (IsUnion self.old other self.new) }
        ensures refused { OnErr result (self.new ≡ self.old) }
    {
        let mut other = other.states;
        self.states.append(&mut other)
    }
}

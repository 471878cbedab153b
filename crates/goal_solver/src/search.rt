//! What a search has met.
ghost use Rattle.std.specs.Prelude.{◌≡◌, ◌↔◌, ◌<◌, ◌≤◌, ℕ, Some, Ok, [], ◌∷◌, true, false, length, map, slice_get, IsTrue, IfOk, OnOk};
ghost use Rattle.std.specs.List.{Contains};
ghost use Rattle.typegraph.specs.Maps.{look};
ghost use Rattle.goal_solver.specs.declared.state.State.{State};
ghost use Rattle.goal_solver.specs.States.{state_of, IsMet};
ghost use Rattle.goal_solver.specs.Searches.{IsBegun, IsKnown, IsExtended, IsFull, IsWayBack};

use crate::state::State;
use crate::state_set::StateSet;
use std::alloc::{AllocError, Global};

/// The states that a search has met, in the order in which they were met, the query first.
#[derive(Drop)]
pub struct Search {
    pub alloc: Global,
    /// More states than this are not looked for.
    pub limit: usize,
    pub states: StateSet,
    /// From which state each state was met, by places. Of the query it says nothing.
    pub parents: Vec<usize>,
    /// The places of the states whose back states are still to be met.
    pub waiting: Vec<usize>,
    /// The place of the state whose back states are met now.
    pub parent: usize,
    /// Whether the states of the list of light states are noted, and not entered.
    pub uses_list: bool,
    /// The states of that list that were met.
    pub noted: StateSet,
}

impl Search {
    /// A search that has met the query alone.
    pub fn new(
        alloc: Global,
        query: State,
        limit: usize,
        uses_list: bool,
    ) -> Result<Search, AllocError>
        ensures { IfOk result (λ search. IsBegun query limit uses_list search) }
    {
        let mut states = StateSet::new(alloc);
        let mut parents = Vec::new(alloc);
        let mut waiting = Vec::new(alloc);
        states.add(query)?;
        parents.push(0)?;
        waiting.push(0)?;
        Ok(Search {
            alloc,
            limit,
            states,
            parents,
            waiting,
            parent: 0,
            uses_list,
            noted: StateSet::new(alloc),
        })
    }

    // Enters a state, if it was not met before.
    fn enter(&mut self, state: State) -> Result<(), AllocError>
        requires { length self.old.parents.items ≡ length self.old.states }
        ensures extended { OnOk result (IsExtended [] (λ x. x ≡ state) self.old self.new) }
        ensures met { OnOk result (IsMet self.new.states state) }
        ensures noted { OnOk result (self.new.noted ≡ self.old.noted) }
    {
        let place = self.states.len();
        if !self.states.add(state)? {
            return Ok(());
        }
        self.parents.push(self.parent)?;
        self.waiting.push(place)?;
        Ok(())
    }

    fn is_listed(&self, light: &StateSet, state: &State) -> bool
        ensures { IsTrue result → IsTrue self.now.uses_list × IsMet light.now state.now }
    {
        self.uses_list && light.has(state)
    }

    // Enters a state, or notes it where it is in a list that is used.
    fn take(&mut self, light: &StateSet, state: State) -> Result<(), AllocError>
        requires { length self.old.parents.items ≡ length self.old.states }
        ensures extended { OnOk result (IsExtended light.now (λ x. x ≡ state) self.old self.new) }
        ensures met { OnOk result (IsKnown self.new (state_of state)) }
    {
        if self.is_listed(light, &state) {
            self.noted.add(state)?;
            return Ok(());
        }
        self.enter(state)
    }

    /// Meets a back state. It answers false where the search has more states than its limit.
    pub fn meet(&mut self, light: &StateSet, state: State) -> Result<bool, AllocError>
        requires { length self.old.parents.items ≡ length self.old.states }
        ensures extended { IfOk result (λ _. IsExtended light.now (λ x. x ≡ state) self.old self.new) }
        ensures met { IfOk result (λ _. IsKnown self.new (state_of state)) }
        ensures full { result ≡ Ok false → IsFull self.new }
    {
        self.take(light, state)?;
        Ok(self.states.len() <= self.limit)
    }

    /// From now on the list is not used: what was noted is entered.
    pub fn leave_list(&mut self) -> Result<(), AllocError>
        requires { length self.old.parents.items ≡ length self.old.states }
        ensures extended { OnOk result (IsExtended [] (IsMet self.old.noted) (record self.old { uses_list = false }) self.new) }
        ensures met { OnOk result ((x : State) → Contains self.old.noted x → IsMet self.new.states x) }
    {
        self.uses_list = false;
        for place in 0..self.noted.len() {
            let state = self.noted.get(place).copy()?;
            self.enter(state)?;
        }
        Ok(())
    }

    /// The states on the way from a state back to the query.
    pub fn way(&self, place: usize) -> Result<StateSet, AllocError>
        requires within { place < length self.now.states }
        requires even { length self.now.parents.items ≡ length self.now.states }
        requires earlier { (child parent : ℕ) → slice_get self.now.parents.items child ≡ Some parent → 0 < child → parent < child }
        ensures { IfOk result (λ way. IsWayBack self.now place way) }
    {
        let mut way = StateSet::new(self.alloc);
        way.add(self.states.get(place).copy()?)?;
        let mut at = place;
        while at > 0 {
            at = self.parents[at];
            way.add(self.states.get(at).copy()?)?;
        }
        Ok(way)
    }
}

//! The solver: what it is asked, and what it remembers.
ghost use Rattle.std.specs.Prelude.{◌≡◌, ◌≢◌, ◌↔◌, Bool, ℕ, ◌+◌, ◌≤◌, ◌⊎◌, ◌++◌, [], Ok, Some, None, true, false, IsTrue, IfOk, OnOk, OnErr, if◌then◌else◌};
ghost use Rattle.graph_walks.specs.Worlds.{Memory};
ghost use Rattle.graph_walks.specs.Walks.{Visible};
ghost use Rattle.graph_walks.specs.Backs.{Reached, Heavy};
ghost use Rattle.typegraph.specs.Graphs.{GraphTables};
ghost use Rattle.typegraph.specs.Maps.{look};
ghost use Rattle.goal_solver.specs.Graphs.{world_of};
ghost use Rattle.goal_solver.specs.declared.state.State.{State};
ghost use Rattle.goal_solver.specs.Searches.{IsWhole};
ghost use Rattle.goal_solver.specs.Memos.{Remembers, IsLight, IsSound, grown};
ghost use Rattle.goal_solver.specs.Answers.{IsKnownAs, IsAnswered, IsWeighed};

use crate::seek::{Found, seek};
use crate::state::State;
use crate::state_set::StateSet;
use flow_graph::Steps;
use place_ids::PointId;
use std::alloc::{AllocError, Global};
use std::marker::Model;
use std::sync::ledger::Ledger;
use typegraph::{GoalMap, Graph};

/// What is answered to a query.
#[derive(Clone, Copy, Debug, PartialEq, Eq)]
pub enum Answer {
    /// Some walk explains it.
    Yes,
    /// No walk explains it, and it isn't heavy.
    No,
    /// More states than the budget are reached from it.
    Spent,
}

/// Answers queries within a budget of states, and remembers the answers. Contracts see its memo as a map from states to answers, and the states that it knows not to be heavy.
#[derive(Debug, Drop)]
pub struct Solver {
    alloc: Global,
    budget: u32,
    yes: StateSet,
    no: StateSet,
    light: StateSet,
}

impl Model for Solver {
    ghost use Rattle.std.specs.Prelude.{map, ◌++◌, true, false};
    ghost use Rattle.goal_solver.specs.Memos.{SolverState};
    ghost use Rattle.goal_solver.specs.Entries.{entry_of, stretch_of};

    ghost Value = { SolverState };

    ghost view = { λ s. record { budget = s.budget; memo = map (entry_of true) s.yes ++ map (entry_of false) s.no; light = map stretch_of s.light } };
}

impl Solver {
    /// A solver with an empty memo. It takes no memory.
    pub fn new(alloc: Global, budget: u32) -> Solver
        ensures empty { result ≡ record { budget = budget; memo = []; light = [] } }
        ensures sound { (graph : GraphTables) → IsSound result graph }
    {
        Solver {
            alloc,
            budget,
            yes: StateSet::new(alloc),
            no: StateSet::new(alloc),
            light: StateSet::new(alloc),
        }
    }

    /// Whether some walk to the point ends with a memory that holds the goals.
    pub fn ask<L: Ledger>(
        &mut self,
        graph: &Graph,
        point: PointId,
        goals: &GoalMap,
        steps: &mut Steps<L>,
    ) -> Result<Answer, AllocError>
        requires { IsSound self.old graph.now }
        ensures no { IfOk result (λ answer. answer ≡ Answer.No ↔
            ((Visible (world_of graph.now) point (look goals.now) → ⊥) × (Heavy (world_of graph.now) point (look goals.now) self.old.budget → ⊥))) }
        ensures yes { result ≡ Ok Answer.Yes → Visible (world_of graph.now) point (look goals.now) }
        ensures spent { result ≡ Ok Answer.Spent → Heavy (world_of graph.now) point (look goals.now) self.old.budget }
        ensures cost { steps.new ≤ steps.old + self.old.budget }
        ensures remembered { (yes : Bool) → Remembers self.old point (look goals.now) yes → steps.new ≡ steps.old }
        ensures after_yes { result ≡ Ok Answer.Yes → Remembers self.new point (look goals.now) true }
        ensures after_no { result ≡ Ok Answer.No → (at : ℕ) (wanted : Memory ℕ ℕ) → Reached (world_of graph.now) point (look goals.now) at wanted → Remembers self.new at wanted false }
        ensures kept { (at : ℕ) (wanted : Memory ℕ ℕ) (yes : Bool) → Remembers self.old at wanted yes → Remembers self.new at wanted yes }
        ensures light { self.new.light ≡ self.old.light }
        ensures sound { IsSound self.new graph.now }
        ensures budget { self.new.budget ≡ self.old.budget }
        ensures refused { OnErr result (self.new ≡ self.old) }
    {
        let query = State {
            point,
            goals: goals.copy()?,
        };
        self.ask_state(graph, query, steps)
    }

    /// Whether more states than the budget are reached from the query, itself counted.
    pub fn heavy<L: Ledger>(
        &mut self,
        graph: &Graph,
        point: PointId,
        goals: &GoalMap,
        steps: &mut Steps<L>,
    ) -> Result<bool, AllocError>
        requires { IsSound self.old graph.now }
        ensures exact { IfOk result (λ heavy. IsTrue heavy ↔ Heavy (world_of graph.now) point (look goals.now) self.old.budget) }
        ensures cost { steps.new ≤ steps.old + self.old.budget }
        ensures remembered { IsLight self.old point (look goals.now) ⊎ Remembers self.old point (look goals.now) false → steps.new ≡ steps.old }
        ensures after_false { result ≡ Ok false → IsLight self.new point (look goals.now) ⊎ Remembers self.new point (look goals.now) false }
        ensures kept { (at : ℕ) (wanted : Memory ℕ ℕ) (yes : Bool) → Remembers self.old at wanted yes → Remembers self.new at wanted yes }
        ensures sound { IsSound self.new graph.now }
        ensures budget { self.new.budget ≡ self.old.budget }
        ensures refused { OnErr result (self.new ≡ self.old) }
    {
        let query = State {
            point,
            goals: goals.copy()?,
        };
        self.weigh_state(graph, query, steps)
    }

    /// To be called where the graph has grown: each Yes is kept, each No forgotten, and so are the states known as light.
    pub fn grown(&mut self)
        ensures { self.new ≡ grown self.old }
    {
        self.no = StateSet::new(self.alloc);
        self.light = StateSet::new(self.alloc);
    }

    fn has_yes(&self, query: &State) -> bool
        ensures { IsTrue result ↔ Remembers self.now query.now.point (look query.now.goals) true }
    {
        self.yes.has(query)
    }

    fn has_no(&self, query: &State) -> bool
        ensures { IsTrue result ↔ Remembers self.now query.now.point (look query.now.goals) false }
    {
        self.no.has(query)
    }

    fn has_light(&self, query: &State) -> bool
        ensures known { IsTrue result ↔ IsLight self.now query.now.point (look query.now.goals) }
        ensures right { (graph : GraphTables) → IsSound self.now graph → IsTrue result → Heavy (world_of graph) query.now.point (look query.now.goals) self.now.budget → ⊥ }
    {
        self.light.has(query)
    }

    // The answer that is remembered.
    fn known(&self, query: &State) -> Option<Answer>
        ensures { IsKnownAs self.now query.now.point (look query.now.goals) result }
    {
        if self.has_yes(query) {
            return Some(Answer::Yes);
        }
        if self.has_no(query) {
            return Some(Answer::No);
        }
        None
    }

    // Whether it is remembered that the state is not heavy.
    fn is_light(&self, query: &State) -> bool
        ensures known { IsTrue result ↔ (IsLight self.now query.now.point (look query.now.goals) ⊎ Remembers self.now query.now.point (look query.now.goals) false) }
        ensures right { (graph : GraphTables) → IsSound self.now graph → IsTrue result → Heavy (world_of graph) query.now.point (look query.now.goals) self.now.budget → ⊥ }
    {
        self.has_light(query) || self.has_no(query)
    }

    fn ask_state<L: Ledger>(
        &mut self,
        graph: &Graph,
        query: State,
        steps: &mut Steps<L>,
    ) -> Result<Answer, AllocError>
        requires { IsSound self.old graph.now }
        ensures answered { IfOk result (IsAnswered graph.now query.point (look query.goals) self.old self.new) }
        ensures cost { steps.new ≤ steps.old + self.old.budget }
        ensures remembered { (yes : Bool) → Remembers self.old query.point (look query.goals) yes → steps.new ≡ steps.old }
        ensures refused { OnErr result (self.new ≡ self.old) }
    {
        match self.known(&query) {
            Some(answer) => Ok(answer),
            None => self.ask_anew(graph, query, steps),
        }
    }

    // Searches for an answer, and remembers it.
    fn ask_anew<L: Ledger>(
        &mut self,
        graph: &Graph,
        query: State,
        steps: &mut Steps<L>,
    ) -> Result<Answer, AllocError>
        requires { IsSound self.old graph.now }
        ensures answered { IfOk result (IsAnswered graph.now query.point (look query.goals) self.old self.new) }
        ensures cost { steps.new ≤ steps.old + self.old.budget }
        ensures refused { OnErr result (self.new ≡ self.old) }
    {
        let (yes, light) = (&self.yes, &self.light);
        match seek(
            self.alloc,
            graph,
            query,
            self.budget,
            true,
            yes,
            light,
            steps,
        )? {
            Found::Many => Ok(Answer::Spent),
            Found::Way(way) => {
                self.yes.absorb(way)?;
                Ok(Answer::Yes)
            }
            Found::Whole { states, .. } => {
                self.no.absorb(states)?;
                Ok(Answer::No)
            }
        }
    }

    fn weigh_state<L: Ledger>(
        &mut self,
        graph: &Graph,
        query: State,
        steps: &mut Steps<L>,
    ) -> Result<bool, AllocError>
        requires { IsSound self.old graph.now }
        ensures weighed { IfOk result (IsWeighed graph.now query.point (look query.goals) self.old self.new) }
        ensures cost { steps.new ≤ steps.old + self.old.budget }
        ensures remembered { IsLight self.old query.point (look query.goals) ⊎ Remembers self.old query.point (look query.goals) false → steps.new ≡ steps.old }
        ensures refused { OnErr result (self.new ≡ self.old) }
    {
        if self.is_light(&query) {
            return Ok(false);
        }
        self.weigh_anew(graph, query, steps)
    }

    // Searches all that is reached, and remembers it where it is not too much.
    fn weigh_anew<L: Ledger>(
        &mut self,
        graph: &Graph,
        query: State,
        steps: &mut Steps<L>,
    ) -> Result<bool, AllocError>
        requires { IsSound self.old graph.now }
        ensures weighed { IfOk result (IsWeighed graph.now query.point (look query.goals) self.old self.new) }
        ensures cost { steps.new ≤ steps.old + self.old.budget }
        ensures refused { OnErr result (self.new ≡ self.old) }
    {
        let (yes, list) = (&self.yes, &self.light);
        match seek(
            self.alloc,
            graph,
            query,
            self.budget,
            false,
            yes,
            list,
            steps,
        )? {
            Found::Many => Ok(true),
            Found::Way(_) => Ok(false),
            Found::Whole { states, with_list } => {
                take_whole(&mut self.light, states, with_list)?;
                Ok(false)
            }
        }
    }
}

// The states of a whole search become the list, beside those of the list where it was used.
fn take_whole(list: &mut StateSet, states: StateSet, with_list: bool) -> Result<(), AllocError>
    ensures whole { OnOk result ((g : GraphTables) (query : State) (budget : ℕ) → IsWhole g query budget (if with_list then states ++ list.old else states) → IsWhole g query budget list.new) }
    ensures refused { OnErr result (list.new ≡ list.old) }
{
    if with_list {
        return list.absorb(states);
    }
    *list = states;
    Ok(())
}

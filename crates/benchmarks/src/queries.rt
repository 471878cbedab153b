//! Queries, and what a solver answers to them.
ghost use Rattle.std.specs.Prelude.{◌≡◌, ◌<◌};
ghost use Rattle.goal_solver.specs.Memos.{IsSound};

use crate::draft::Draft;
use anyhow::{Result, bail};
use flow_graph::Steps;
use goal_solver::{Answer, Solver};
use place_ids::{Id, PointId};
use std::alloc::{AllocError, Global};
use std::marker::Brand;
use std::sync::ledger::{Blank, Ledger};
use typegraph::{Binding, GoalMap, Graph};

/// A graph, what is wanted at one of its points, a pair of a variable that nothing sets, and how many states are reached from the query.
#[derive(Drop)]
pub struct Query {
    pub draft: Draft,
    pub point: PointId,
    pub goals: Vec<Binding>,
    pub unset: Binding,
    pub states: u32,
}

/// The answers to what is wanted, and to that with the variable that nothing sets; and whether the query is heavy for a budget of its states, and for one of one less.
#[derive(Clone, Copy)]
pub struct Told {
    pub set: Answer,
    pub unset: Answer,
    pub enough: bool,
    pub few: bool,
}

/// At how many points goals are visible, and at how many the query is heavy.
#[derive(Clone, Copy)]
pub struct Tally {
    pub visible: u32,
    pub heavy: u32,
}

fn map_of(alloc: Global, list: &[Binding]) -> Result<GoalMap> {
    let Some(goals) = GoalMap::from_bindings(alloc, list)? else {
        bail!("a variable with two shapes");
    };
    Ok(goals)
}

// What a solver that remembers nothing answers.
fn asked<L: Ledger>(
    alloc: Global,
    query: &Query,
    goals: &GoalMap,
    steps: &mut Steps<L>,
) -> Result<Answer, AllocError> {
    let mut solver = Solver::new(alloc, query.states);
    solver.ask(query.draft.graph(), query.point, goals, steps)
}

// Whether more states than a budget are reached.
fn is_heavy<L: Ledger>(
    alloc: Global,
    query: &Query,
    goals: &GoalMap,
    budget: u32,
    steps: &mut Steps<L>,
) -> Result<bool, AllocError> {
    let mut solver = Solver::new(alloc, budget);
    solver.heavy(query.draft.graph(), query.point, goals, steps)
}

fn told_by<L: Ledger>(alloc: Global, query: &Query, blank: Blank) -> Result<Told>
    requires { (blank.name ≡ L.name) × (blank.parts ≡ L.parts) × (0 < L.parts) }
{
    let mut steps: Steps<L> = Steps::new(blank);
    let goals = query.wanted(alloc)?;
    let more = query.wanted_with_unset(alloc)?;
    let set = asked(alloc, query, &goals, &mut steps)?;
    let unset = asked(alloc, query, &more, &mut steps)?;
    let enough = is_heavy(alloc, query, &goals, query.states, &mut steps)?;
    let few = is_heavy(
        alloc,
        query,
        &goals,
        query.states.saturating_sub(1),
        &mut steps,
    )?;
    Ok(Told {
        set,
        unset,
        enough,
        few,
    })
}

// Counts a point.
fn tell<L: Ledger>(
    tally: &mut Tally,
    solver: &mut Solver,
    graph: &Graph,
    point: PointId,
    goals: &GoalMap,
    steps: &mut Steps<L>,
) -> Result<(), AllocError>
    requires { IsSound solver.old graph.now }
    ensures { IsSound solver.new graph.now }
{
    if solver.ask(graph, point, goals, steps)? == Answer::Yes {
        tally.visible = tally.visible.saturating_add(1);
    }
    if solver.heavy(graph, point, goals, steps)? {
        tally.heavy = tally.heavy.saturating_add(1);
    }
    Ok(())
}

fn tally_by<L: Ledger>(alloc: Global, query: &Query, budget: u32, blank: Blank) -> Result<Tally>
    requires { (blank.name ≡ L.name) × (blank.parts ≡ L.parts) × (0 < L.parts) }
{
    let mut steps: Steps<L> = Steps::new(blank);
    let goals = query.wanted(alloc)?;
    let mut solver = Solver::new(alloc, budget);
    let mut tally = Tally {
        visible: 0,
        heavy: 0,
    };
    let graph = query.draft.graph();
    for number in 0..query.draft.points() {
        let point = PointId::new(number);
        tell(&mut tally, &mut solver, graph, point, &goals, &mut steps)?;
    }
    Ok(tally)
}

impl Query {
    fn wanted(&self, alloc: Global) -> Result<GoalMap> {
        map_of(alloc, self.goals.as_slice())
    }

    fn wanted_with_unset(&self, alloc: Global) -> Result<GoalMap> {
        let mut list = Vec::new(alloc);
        list.extend_from_slice(self.goals.as_slice())?;
        list.push(self.unset)?;
        map_of(alloc, list.as_slice())
    }

    /// What solvers answer that remember nothing.
    pub fn told(&self, alloc: Global) -> Result<Told> {
        told_by::<Brand>(alloc, self, Blank::new(1))
    }

    /// What one solver answers that is asked at each point of the graph, with a budget of so many states.
    pub fn tally(&self, alloc: Global, budget: u32) -> Result<Tally> {
        tally_by::<Brand>(alloc, self, budget, Blank::new(1))
    }
}

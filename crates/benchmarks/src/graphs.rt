//! Graphs of four kinds, each with a query at its end.
use crate::draft::Draft;
use crate::queries::Query;
use flow_graph::{Ask, Edge, Test, Truth};
use place_ids::{PointId, ShapeId, VarId};
use std::alloc::{AllocError, Global};
use typegraph::Binding;

fn plain(from: PointId, to: PointId) -> Edge {
    Edge {
        from,
        to,
        assigns: false,
        asks: None,
    }
}

fn assigning(from: PointId, to: PointId) -> Edge {
    Edge {
        from,
        to,
        assigns: true,
        asks: None,
    }
}

fn asking(from: PointId, to: PointId, var: VarId, test: Test) -> Edge {
    Edge {
        from,
        to,
        assigns: false,
        asks: Some(Ask { var, test }),
    }
}

/// Points one after another; the first sets a variable, and the last wants it. A query reaches each of them.
pub fn line(alloc: Global, points: u32) -> Result<Query, AllocError> {
    let mut draft = Draft::new(alloc);
    let shape = draft.add_shape(Truth::Yes);
    let var = draft.add_var();
    let unset = draft.add_var();
    let first = draft.add_point(Some(var), true);
    draft.add_fact(first, shape, &[]);
    let mut last = draft.add_point(None, false);
    draft.add_edge(assigning(first, last));
    for _ in 2..points {
        let next = draft.add_point(None, false);
        draft.add_edge(plain(last, next));
        last = next;
    }
    let mut goals = Vec::new(alloc);
    goals.push(Binding { var, shape })?;
    Ok(Query {
        draft,
        point: last,
        goals,
        unset: Binding { var: unset, shape },
        states: points,
    })
}

// A point behind another that gives a variable shapes.
fn add_setting(draft: &mut Draft, before: PointId, var: VarId, shapes: &[ShapeId]) -> PointId {
    let here = draft.add_point(Some(var), false);
    draft.add_edge(assigning(before, here));
    for shape in shapes {
        draft.add_fact(here, *shape, &[]);
    }
    here
}

// Two ways on from a point, by the truth of a variable; each gives another variable a shape, and they join.
fn add_branches(
    draft: &mut Draft,
    before: PointId,
    asked: VarId,
    var: VarId,
    shape: ShapeId,
) -> PointId {
    let yes = draft.add_point(Some(var), false);
    let no = draft.add_point(Some(var), false);
    let join = draft.add_point(None, false);
    draft.add_fact(yes, shape, &[]);
    draft.add_fact(no, shape, &[]);
    draft.add_edge(asking(before, yes, asked, Test::MayBeTrue));
    draft.add_edge(asking(before, no, asked, Test::MayBeFalse));
    draft.add_edge(assigning(yes, join));
    draft.add_edge(assigning(no, join));
    join
}

/// Variables that are true or false from the start, and a test of each; the end wants all that the branches set.
/// Without a test a query reaches two states, and each test doubles them and adds three.
pub fn tests(alloc: Global, count: u32) -> Result<Query, AllocError> {
    let mut draft = Draft::new(alloc);
    let yes = draft.add_shape(Truth::Yes);
    let no = draft.add_shape(Truth::No);
    let unset = draft.add_var();
    let mut asked = Vec::new(alloc);
    let mut here = draft.add_point(None, true);
    for _ in 0..count {
        let var = draft.add_var();
        here = add_setting(&mut draft, here, var, &[yes, no]);
        asked.push(var)?;
    }
    let set = here;
    here = draft.add_point(None, false);
    draft.add_edge(assigning(set, here));
    let mut goals = Vec::new(alloc);
    let mut states = 2u32;
    for asked in asked.iter() {
        let var = draft.add_var();
        here = add_branches(&mut draft, here, *asked, var, yes);
        goals.push(Binding { var, shape: yes })?;
        states = states.saturating_mul(2).saturating_add(3);
    }
    Ok(Query {
        draft,
        point: here,
        goals,
        unset: Binding {
            var: unset,
            shape: yes,
        },
        states,
    })
}

/// Points that all set a variable, and lead to one that wants it. A query reaches each of them, and that one.
pub fn edges(alloc: Global, count: u32) -> Result<Query, AllocError> {
    let mut draft = Draft::new(alloc);
    let shape = draft.add_shape(Truth::Yes);
    let var = draft.add_var();
    let unset = draft.add_var();
    let end = draft.add_point(None, false);
    for _ in 0..count {
        let start = draft.add_point(Some(var), true);
        draft.add_fact(start, shape, &[]);
        draft.add_edge(assigning(start, end));
    }
    let mut goals = Vec::new(alloc);
    goals.push(Binding { var, shape })?;
    Ok(Query {
        draft,
        point: end,
        goals,
        unset: Binding { var: unset, shape },
        states: count.saturating_add(1),
    })
}

/// A point where a variable gets one shape by many source sets, each of which the point before explains. A query reaches that point, the end, and the one before with each source set.
pub fn facts(alloc: Global, count: u32) -> Result<Query, AllocError> {
    let mut draft = Draft::new(alloc);
    let shape = draft.add_shape(Truth::Yes);
    let source = draft.add_var();
    let var = draft.add_var();
    let unset = draft.add_var();
    let start = draft.add_point(Some(source), true);
    let point = draft.add_point(Some(var), false);
    let end = draft.add_point(None, false);
    draft.add_edge(assigning(start, point));
    draft.add_edge(assigning(point, end));
    for _ in 0..count {
        let own = draft.add_shape(Truth::Yes);
        draft.add_fact(start, own, &[]);
        let binding = Binding {
            var: source,
            shape: own,
        };
        draft.add_fact(point, shape, &[binding]);
    }
    let mut goals = Vec::new(alloc);
    goals.push(Binding { var, shape })?;
    Ok(Query {
        draft,
        point: end,
        goals,
        unset: Binding { var: unset, shape },
        states: count.saturating_add(2),
    })
}

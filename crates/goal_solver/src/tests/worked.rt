//! Two graphs that are followed step by step. A state is written as its point and what is wanted there.
use crate::Answer::{No, Yes};
use crate::tests::draft::Draft;
use crate::tests::rows::check_rows;
use crate::tests::sketch::Place::{Inner, Root};
use crate::tests::sketch::Way::{Assigning, Plain};
use crate::tests::sketch::{Given, Question, Row, Sketch};
use flow_graph::Truth::Both;
use place_ids::{Id, VarId};
use typegraph::FactFault;

const ROUND: Sketch = Sketch {
    vars: 2,
    shapes: &[Both, Both, Both],
    places: &[Root(Some(0)), Inner(None), Inner(Some(1))],
    ways: &[Assigning(0, 1), Plain(1, 2), Assigning(2, 1)],
    facts: &[
        Given(0, 0, &[]),
        Given(2, 1, &[(0, 0)]),
        Given(2, 2, &[(1, 2)]),
    ],
};

// 1 {1: 2} has 0 {1: 2}, which no edge leads to, and by its fact 2 {1: 2}, which has 1 {1: 2} alone.
const ITSELF: Question = Question(1, &[(1, 2)], No, 3);

const LINE: Sketch = Sketch {
    vars: 2,
    shapes: &[Both, Both, Both],
    places: &[Root(Some(0)), Inner(Some(1)), Inner(None)],
    ways: &[Assigning(0, 1), Assigning(1, 2)],
    facts: &[Given(0, 0, &[]), Given(0, 1, &[]), Given(1, 2, &[(0, 0)])],
};

const WORKED: [Row; 2] = [
    Row {
        name: "a loop that assigns",
        graph: ROUND,
        questions: &[
            // It has 0 {1: 1}, which no edge leads to, and by its fact 2 {0: 0}, which has 1 {0: 0}, which has the root's 0 {} and 2 {0: 0}.
            Question(1, &[(1, 1)], Yes, 5),
            ITSELF,
        ],
    },
    Row {
        name: "a line that assigns",
        graph: LINE,
        questions: &[
            // It has 1 {0: 0}, which has the root's 0 {}.
            Question(2, &[(0, 0), (1, 2)], Yes, 3),
            // The source set has another shape of variable 0.
            Question(2, &[(0, 1), (1, 2)], No, 1),
        ],
    },
];

#[test]
fn worked_graphs_have_their_answers(rt: HostRuntime) {
    check_rows(&rt, rt.alloc(), &WORKED);
}

#[test]
fn a_new_fact_explains_what_was_denied(rt: HostRuntime) {
    // 1 {1: 2} then has 2 {0: 0} too, which has 1 {0: 0}, which has the root's 0 {}: 6 states.
    let fact = Given(2, 2, &[(0, 0)]);
    let mut draft = Draft::of(&rt, rt.alloc(), &ROUND);
    let answers = draft.ask_around(&rt, 6, &ITSELF, &fact);
    assert_eq!(rt; answers, [No, Yes]);
}

#[test]
fn a_source_set_with_two_shapes_is_refused(rt: HostRuntime) {
    let fact = Given(1, 2, &[(0, 0), (0, 1)]);
    let mut draft = Draft::of(&rt, rt.alloc(), &LINE);
    let refused = draft.add_fact(&rt, &fact);
    assert_eq!(rt; refused, Err(FactFault::TwoShapes(VarId::new(0))));
}

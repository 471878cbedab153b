//! Graphs with loops and cycles. A comment follows the back states of its question, each written as a point and what is wanted there.
// Read from a root with nothing wanted back to the question, it is the walk that explains a Yes.
use crate::Answer::{No, Yes};
use crate::tests::rows::check_rows;
use crate::tests::sketch::Place::{Inner, Root};
use crate::tests::sketch::Way::{Assigning, Plain};
use crate::tests::sketch::{Given, Question, Row, Sketch};
use flow_graph::Truth::Both;

const WITHOUT_FACTS: [Row; 2] = [
    Row {
        name: "a root alone",
        graph: Sketch {
            vars: 0,
            shapes: &[],
            places: &[Root(None)],
            ways: &[],
            facts: &[],
        },
        questions: &[
            // The walk with no step.
            Question(0, &[], Yes, 1),
            // It ends with nothing.
            Question(0, &[(0, 0)], No, 1),
            // There is no such point.
            Question(7, &[], No, 1),
        ],
    },
    Row {
        name: "a cycle apart from the root",
        graph: Sketch {
            vars: 0,
            shapes: &[],
            places: &[Root(None), Inner(None), Inner(None)],
            ways: &[Plain(1, 2), Plain(2, 1)],
            facts: &[],
        },
        // It has 2 {}, which has 1 {}.
        questions: &[Question(1, &[], No, 2)],
    },
];

const AT_ONE_POINT: [Row; 4] = [
    Row {
        name: "a root that leads to itself",
        graph: Sketch {
            vars: 1,
            shapes: &[Both],
            places: &[Root(Some(0))],
            ways: &[Assigning(0, 0)],
            facts: &[Given(0, 0, &[])],
        },
        questions: &[
            // It has 0 {}, which has itself.
            Question(0, &[(0, 0)], Yes, 2),
            Question(0, &[], Yes, 1),
        ],
    },
    Row {
        name: "each shape by the one before",
        graph: Sketch {
            vars: 1,
            shapes: &[Both, Both, Both],
            places: &[Root(Some(0))],
            ways: &[Assigning(0, 0)],
            facts: &[
                Given(0, 0, &[]),
                Given(0, 1, &[(0, 0)]),
                Given(0, 2, &[(0, 1)]),
            ],
        },
        questions: &[
            // It has 0 {0: 1}, which has 0 {0: 0}, which has 0 {}.
            Question(0, &[(0, 2)], Yes, 4),
            Question(0, &[(0, 1)], Yes, 3),
        ],
    },
    Row {
        name: "a shape by itself",
        graph: Sketch {
            vars: 1,
            shapes: &[Both],
            places: &[Root(Some(0))],
            ways: &[Assigning(0, 0)],
            facts: &[Given(0, 0, &[(0, 0)])],
        },
        // It has itself alone, so no walk has given the shape first.
        questions: &[Question(0, &[(0, 0)], No, 1)],
    },
    Row {
        name: "two shapes by each other",
        graph: Sketch {
            vars: 1,
            shapes: &[Both, Both],
            places: &[Root(Some(0))],
            ways: &[Assigning(0, 0)],
            facts: &[Given(0, 0, &[(0, 1)]), Given(0, 1, &[(0, 0)])],
        },
        // It has 0 {0: 1}, which has 0 {0: 0}.
        questions: &[Question(0, &[(0, 0)], No, 2)],
    },
];

const ROUND_MORE_POINTS: [Row; 3] = [
    Row {
        name: "two variables by each other",
        graph: Sketch {
            vars: 2,
            shapes: &[Both, Both],
            places: &[Root(Some(0)), Inner(Some(1))],
            ways: &[Assigning(0, 1), Assigning(1, 0)],
            facts: &[
                Given(0, 0, &[(1, 0)]),
                Given(0, 1, &[]),
                Given(1, 0, &[(0, 0)]),
                Given(1, 1, &[(0, 1)]),
            ],
        },
        questions: &[
            // It has 1 {0: 0}, which has 0 {1: 0}.
            Question(0, &[(1, 0)], No, 2),
            // It has 1 {0: 1}, which has the root's 0 {}, which has 1 {}, which has 0 {}.
            Question(0, &[(1, 1)], Yes, 4),
        ],
    },
    Row {
        name: "a shape by the round before",
        graph: Sketch {
            vars: 2,
            shapes: &[Both, Both, Both],
            places: &[Root(Some(0)), Inner(None), Inner(Some(1)), Inner(Some(0))],
            ways: &[
                Assigning(0, 1),
                Plain(1, 2),
                Assigning(2, 3),
                Assigning(3, 1),
            ],
            facts: &[
                Given(0, 0, &[]),
                Given(2, 1, &[(0, 0)]),
                Given(3, 2, &[(1, 1)]),
            ],
        },
        questions: &[
            // It has 3 {1: 1}, which has 2 {0: 0}, which has 1 {0: 0}, which has 0 {}. Point 0 has no fact of shape 2, and point 3 none of shape 0.
            Question(1, &[(0, 2)], Yes, 5),
            // It has 0 {1: 1}, which no edge leads to. After a round variable 0 has shape 2.
            Question(1, &[(0, 0), (1, 1)], No, 2),
        ],
    },
    Row {
        name: "two roots",
        graph: Sketch {
            vars: 1,
            shapes: &[Both, Both, Both],
            places: &[Root(Some(0)), Root(Some(0)), Inner(None)],
            ways: &[Assigning(0, 2), Assigning(1, 2)],
            facts: &[Given(0, 0, &[]), Given(1, 1, &[])],
        },
        questions: &[
            // It has 0 {}.
            Question(2, &[(0, 0)], Yes, 2),
            // It has 0 {} and 1 {}.
            Question(2, &[], Yes, 3),
            // No fact gives the shape.
            Question(2, &[(0, 2)], No, 1),
        ],
    },
];

#[test]
fn graphs_without_facts_have_their_answers(rt: HostRuntime) {
    check_rows(&rt, rt.alloc(), &WITHOUT_FACTS);
}

#[test]
fn loops_at_one_point_have_their_answers(rt: HostRuntime) {
    check_rows(&rt, rt.alloc(), &AT_ONE_POINT);
}

#[test]
fn loops_round_more_points_have_their_answers(rt: HostRuntime) {
    check_rows(&rt, rt.alloc(), &ROUND_MORE_POINTS);
}

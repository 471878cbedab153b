//! Graphs where source sets meet what is wanted. A comment follows the back states of its question, each written as a point and what is wanted there.
// Read from a root with nothing wanted back to the question, it is the walk that explains a Yes.
use crate::Answer::{No, Yes};
use crate::tests::rows::check_rows;
use crate::tests::sketch::Place::{Inner, Root};
use crate::tests::sketch::Way::{Assigning, Plain};
use crate::tests::sketch::{Given, Question, Row, Sketch};
use flow_graph::Truth::Both;

const TWO_VARIABLES: [Row; 3] = [
    Row {
        name: "two facts of one shape",
        graph: Sketch {
            vars: 2,
            shapes: &[Both, Both, Both],
            places: &[Root(Some(0)), Inner(Some(1)), Inner(None)],
            ways: &[Assigning(0, 1), Assigning(1, 2)],
            facts: &[
                Given(0, 0, &[]),
                Given(0, 1, &[]),
                Given(1, 2, &[(0, 0)]),
                Given(1, 2, &[(0, 1)]),
            ],
        },
        questions: &[
            // It has 1 {0: 0} and 1 {0: 1}, which have 0 {}.
            Question(2, &[(1, 2)], Yes, 4),
            // Only the second source set has this shape of variable 0: it has 1 {0: 1}, which has 0 {}.
            Question(2, &[(0, 1), (1, 2)], Yes, 3),
        ],
    },
    Row {
        name: "a variable that follows another round a loop",
        graph: Sketch {
            vars: 2,
            shapes: &[Both, Both],
            places: &[Root(Some(0)), Inner(Some(1)), Inner(None)],
            ways: &[Assigning(0, 1), Assigning(1, 2), Plain(2, 1)],
            facts: &[
                Given(0, 0, &[]),
                Given(0, 1, &[]),
                Given(1, 0, &[(0, 0)]),
                Given(1, 1, &[(0, 1)]),
            ],
        },
        questions: &[
            // The source set has another shape of variable 0.
            Question(2, &[(0, 0), (1, 1)], No, 1),
            // It has 1 {0: 1}, which has 0 {} and 2 {0: 1}, which has 1 {0: 1}.
            Question(2, &[(0, 1), (1, 1)], Yes, 4),
        ],
    },
    Row {
        name: "one state in two orders",
        graph: Sketch {
            vars: 3,
            shapes: &[Both, Both, Both],
            places: &[
                Root(Some(0)),
                Inner(Some(2)),
                Inner(Some(2)),
                Inner(None),
                Inner(None),
            ],
            ways: &[
                Assigning(0, 4),
                Plain(4, 1),
                Plain(4, 2),
                Assigning(1, 3),
                Assigning(2, 3),
            ],
            facts: &[
                Given(0, 0, &[]),
                Given(1, 2, &[(0, 0), (1, 1)]),
                Given(2, 2, &[(1, 1), (0, 0)]),
            ],
        },
        // It has 1 {0: 0, 1: 1} and 2 {1: 1, 0: 0}, which have 4 with the same two shapes, which has 0 {1: 1}. No fact gives that.
        questions: &[Question(3, &[(2, 2)], No, 5)],
    },
];

const ONE_VARIABLE: [Row; 3] = [
    Row {
        name: "a shape that is passed by",
        graph: Sketch {
            vars: 1,
            shapes: &[Both, Both],
            places: &[Root(Some(0)), Inner(Some(0)), Inner(None)],
            ways: &[Assigning(0, 1), Assigning(1, 2), Plain(1, 2)],
            facts: &[Given(0, 0, &[]), Given(1, 1, &[])],
        },
        questions: &[
            // By the plain edge it has 1 {0: 0}, which has 0 {}. Point 1 has no fact of shape 0.
            Question(2, &[(0, 0)], Yes, 3),
            // It has 1 {} by the fact, which has 0 {}, and 1 {0: 1}, which has nothing: point 0 has no fact of shape 1.
            Question(2, &[(0, 1)], Yes, 4),
            // By both edges it has 1 {}, which has 0 {}.
            Question(2, &[], Yes, 3),
        ],
    },
    Row {
        name: "a shape that is assigned over",
        graph: Sketch {
            vars: 1,
            shapes: &[Both, Both],
            places: &[Root(Some(0)), Inner(Some(0)), Inner(None)],
            ways: &[Assigning(0, 1), Assigning(1, 2)],
            facts: &[Given(0, 0, &[]), Given(1, 1, &[])],
        },
        questions: &[
            // Point 1 has no fact of shape 0.
            Question(2, &[(0, 0)], No, 1),
            // It has 1 {}, which has 0 {}.
            Question(2, &[(0, 1)], Yes, 3),
        ],
    },
    Row {
        name: "a shape of the variable that is assigned",
        graph: Sketch {
            vars: 1,
            shapes: &[Both, Both, Both],
            places: &[Root(Some(0)), Inner(Some(0)), Inner(None)],
            ways: &[Assigning(0, 1), Assigning(1, 2)],
            facts: &[
                Given(0, 0, &[]),
                Given(1, 1, &[(0, 0)]),
                Given(1, 2, &[(0, 2)]),
            ],
        },
        questions: &[
            // It has 1 {0: 0}, which has 0 {}.
            Question(2, &[(0, 1)], Yes, 3),
            // It has 1 {0: 2}, which has nothing: point 0 has no fact of shape 2.
            Question(2, &[(0, 2)], No, 2),
        ],
    },
];

#[test]
fn source_sets_of_another_variable_have_their_answers(rt: HostRuntime) {
    check_rows(&rt, rt.alloc(), &TWO_VARIABLES);
}

#[test]
fn facts_of_one_variable_have_their_answers(rt: HostRuntime) {
    check_rows(&rt, rt.alloc(), &ONE_VARIABLE);
}

//! Graphs whose edges ask. A comment follows the back states of its question, each written as a point and what is wanted there.
// Read from a root with nothing wanted back to the question, it is the walk that explains a Yes.
use crate::Answer::{No, Yes};
use crate::tests::rows::check_rows;
use crate::tests::sketch::Place::{Inner, Root};
use crate::tests::sketch::Way::{Asking, Assigning, AssigningAsking, Plain};
use crate::tests::sketch::{Given, Question, Row, Sketch, Wish};
use flow_graph::Truth;

const SHAPES: &[Truth] = &[Truth::Yes, Truth::No, Truth::Both];

const EACH_SHAPE: &[Given] = &[Given(0, 0, &[]), Given(0, 1, &[]), Given(0, 2, &[])];

const TESTS: [Row; 4] = [
    Row {
        name: "a variable that may be true",
        graph: Sketch {
            vars: 1,
            shapes: SHAPES,
            places: &[Root(Some(0)), Inner(None), Inner(None)],
            ways: &[Assigning(0, 1), Asking(1, 2, Wish::True(0))],
            facts: EACH_SHAPE,
        },
        questions: &[
            // It has 1 {0: 0} and 1 {0: 2}, which have 0 {}.
            Question(2, &[], Yes, 4),
            // Shape 1 is false, and each shape that passes is another.
            Question(2, &[(0, 1)], No, 1),
            // It has 1 {0: 2}, which has 0 {}.
            Question(2, &[(0, 2)], Yes, 3),
        ],
    },
    Row {
        name: "a variable that may be false",
        graph: Sketch {
            vars: 1,
            shapes: SHAPES,
            places: &[Root(Some(0)), Inner(None), Inner(None)],
            ways: &[Assigning(0, 1), Asking(1, 2, Wish::False(0))],
            facts: EACH_SHAPE,
        },
        questions: &[
            // It has 1 {0: 1} and 1 {0: 2}, which have 0 {}.
            Question(2, &[], Yes, 4),
            // Shape 0 is true, and each shape that passes is another.
            Question(2, &[(0, 0)], No, 1),
            // It has 1 {0: 2}, which has 0 {}.
            Question(2, &[(0, 2)], Yes, 3),
        ],
    },
    Row {
        name: "a variable of one shape",
        graph: Sketch {
            vars: 1,
            shapes: SHAPES,
            places: &[Root(Some(0)), Inner(None), Inner(None)],
            ways: &[Assigning(0, 1), Asking(1, 2, Wish::Is(0, 1))],
            facts: EACH_SHAPE,
        },
        questions: &[
            // It has 1 {0: 1}, which has 0 {}.
            Question(2, &[], Yes, 3),
            Question(2, &[(0, 1)], Yes, 3),
            // The shape that passes is another.
            Question(2, &[(0, 0)], No, 1),
        ],
    },
    Row {
        name: "a variable without facts",
        graph: Sketch {
            vars: 1,
            shapes: SHAPES,
            places: &[Root(None), Inner(None), Inner(None)],
            ways: &[Asking(0, 1, Wish::True(0)), Asking(0, 2, Wish::Is(0, 0))],
            facts: &[],
        },
        // No fact gives a shape that could pass, also where that shape is wanted.
        questions: &[
            Question(1, &[], No, 1),
            Question(1, &[(0, 0)], No, 1),
            Question(2, &[], No, 1),
        ],
    },
];

const LOOPS: [Row; 2] = [
    Row {
        name: "a loop while a variable is true",
        graph: Sketch {
            vars: 1,
            shapes: SHAPES,
            places: &[Root(Some(0)), Inner(None), Inner(Some(0)), Inner(None)],
            ways: &[
                Assigning(0, 1),
                Asking(1, 2, Wish::True(0)),
                Assigning(2, 1),
                Asking(1, 3, Wish::False(0)),
            ],
            facts: &[Given(0, 0, &[]), Given(2, 1, &[])],
        },
        questions: &[
            // It has 1 {0: 1}, which has 2 {}, which has 1 {0: 0}, which has 0 {}.
            Question(3, &[], Yes, 5),
            // The loop ends only with shape 1.
            Question(3, &[(0, 0)], No, 1),
            // A round begins only with shape 0.
            Question(2, &[(0, 1)], No, 1),
            Question(1, &[(0, 1)], Yes, 4),
        ],
    },
    Row {
        name: "a point that asks itself",
        graph: Sketch {
            vars: 1,
            shapes: SHAPES,
            places: &[Root(Some(0)), Inner(None)],
            ways: &[Assigning(0, 1), Asking(1, 1, Wish::True(0))],
            facts: &[Given(0, 0, &[]), Given(0, 1, &[])],
        },
        questions: &[
            // It has 0 {} and 1 {0: 0}, which has 0 {} and itself.
            Question(1, &[], Yes, 3),
            // It has 0 {}. The other edge asks for another shape.
            Question(1, &[(0, 1)], Yes, 2),
            // It has 0 {} and itself.
            Question(1, &[(0, 0)], Yes, 2),
        ],
    },
];

const WITH_FACTS: [Row; 4] = [
    Row {
        name: "an edge that asks what it assigns",
        graph: Sketch {
            vars: 1,
            shapes: SHAPES,
            places: &[Root(Some(0)), Inner(Some(0)), Inner(None)],
            ways: &[Assigning(0, 1), AssigningAsking(1, 2, Wish::True(0))],
            facts: &[Given(0, 0, &[]), Given(1, 1, &[])],
        },
        questions: &[
            // It has 1 {0: 0}, the shape before, which has 0 {}.
            Question(2, &[(0, 1)], Yes, 3),
            // Point 1 has no fact of shape 0.
            Question(2, &[(0, 0)], No, 1),
            // It has 1 {0: 0}, which has 0 {}.
            Question(2, &[], Yes, 3),
        ],
    },
    Row {
        name: "a source set against a test",
        graph: Sketch {
            vars: 2,
            shapes: SHAPES,
            places: &[Root(Some(0)), Inner(Some(1)), Inner(None)],
            ways: &[Assigning(0, 1), AssigningAsking(1, 2, Wish::Is(0, 1))],
            facts: &[Given(0, 0, &[]), Given(0, 1, &[]), Given(1, 2, &[(0, 0)])],
        },
        questions: &[
            // The source set has shape 0, and the edge asks for shape 1.
            Question(2, &[(1, 2)], No, 1),
            // It has 1 {0: 1}, which has 0 {}.
            Question(2, &[], Yes, 3),
        ],
    },
    Row {
        name: "two branches that meet",
        graph: Sketch {
            vars: 1,
            shapes: SHAPES,
            places: &[
                Root(Some(0)),
                Inner(None),
                Inner(None),
                Inner(None),
                Inner(None),
            ],
            ways: &[
                Assigning(0, 1),
                Asking(1, 2, Wish::True(0)),
                Asking(1, 3, Wish::False(0)),
                Plain(2, 4),
                Plain(3, 4),
            ],
            facts: &[Given(0, 0, &[]), Given(0, 1, &[])],
        },
        questions: &[
            // It has 2 {}, which has 1 {0: 0}, and 3 {}, which has 1 {0: 1}. Both have 0 {}.
            Question(4, &[], Yes, 6),
            // It has 2 {0: 0}, which has 1 {0: 0}, which has 0 {}; and 3 {0: 0}, which has nothing.
            Question(4, &[(0, 0)], Yes, 5),
        ],
    },
    Row {
        name: "each pair of shapes",
        graph: Sketch {
            vars: 2,
            shapes: &[Truth::Both, Truth::Both],
            places: &[
                Root(Some(0)),
                Inner(Some(1)),
                Inner(None),
                Inner(None),
                Inner(None),
            ],
            ways: &[
                Assigning(0, 1),
                Assigning(1, 2),
                Asking(2, 3, Wish::True(0)),
                Asking(3, 4, Wish::True(1)),
            ],
            facts: &[
                Given(0, 0, &[]),
                Given(0, 1, &[]),
                Given(1, 0, &[]),
                Given(1, 1, &[]),
            ],
        },
        questions: &[
            // At 3 variable 1 has one of two shapes, at 2 both variables have, at 1 variable 0 has: 2, 4 and 2 states, and then 0 {}.
            Question(4, &[], Yes, 10),
            // With variable 0 of shape 0 throughout there are 2, 2 and 1, and then 0 {}.
            Question(4, &[(0, 0)], Yes, 7),
        ],
    },
];

#[test]
fn tests_have_their_answers(rt: HostRuntime) {
    check_rows(&rt, rt.alloc(), &TESTS);
}

#[test]
fn loops_that_ask_have_their_answers(rt: HostRuntime) {
    check_rows(&rt, rt.alloc(), &LOOPS);
}

#[test]
fn edges_that_ask_among_facts_have_their_answers(rt: HostRuntime) {
    check_rows(&rt, rt.alloc(), &WITH_FACTS);
}

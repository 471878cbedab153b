//! A row of a table: its graph is made, and its questions are asked.
use crate::Answer;
use crate::tests::draft::{Draft, Told};
use crate::tests::sketch::{Question, Row};
use std::alloc::Global;
use std::process::Abort;

// Whether a solver may answer this where its budget is too small for all states.
fn is_fair(answer: Answer, right: Answer) -> bool {
    match answer {
        Answer::Yes => right == Answer::Yes,
        Answer::No => false,
        Answer::Spent => true,
    }
}

/// The answer at a budget of as many states as are reached, and at one less.
fn check(rt: &impl Abort, draft: &Draft, name: &str, question: &Question) {
    let Question(_, _, answer, states) = *question;
    assert!(rt; 0 < states);
    let enough = draft.told(rt, states, question);
    let heavy = false;
    assert_eq!(rt; enough, Told { answer, heavy }, "{name}");
    let few = draft.told(rt, states - 1, question);
    assert!(rt; few.heavy, "{name}");
    assert!(rt; is_fair(few.answer, answer), "{name}");
}

fn check_row(rt: &impl Abort, alloc: Global, row: &Row) {
    let draft = Draft::of(rt, alloc, &row.graph);
    for question in row.questions {
        check(rt, &draft, row.name, question);
    }
}

/// Each row of a table.
pub fn check_rows(rt: &impl Abort, alloc: Global, rows: &[Row]) {
    for row in rows {
        check_row(rt, alloc, row);
    }
}

//! Graphs by hand as data, and what is asked of them.
use crate::Answer;
use flow_graph::Truth;

/// A point: whether walks start there, and what its facts are about.
#[derive(Clone, Copy)]
pub enum Place {
    Root(Option<u32>),
    Inner(Option<u32>),
}

/// What an edge asks of a variable: that it may be true or false, or that it has a shape.
#[derive(Clone, Copy)]
pub enum Wish {
    True(u32),
    False(u32),
    Is(u32, u32),
}

/// An edge from one point to another.
#[derive(Clone, Copy)]
pub enum Way {
    Plain(u32, u32),
    Assigning(u32, u32),
    Asking(u32, u32, Wish),
    AssigningAsking(u32, u32, Wish),
}

/// A fact: a point, the shape that its target gets there, and the shapes that variables have then.
#[derive(Clone, Copy)]
pub struct Given(pub u32, pub u32, pub &'static [(u32, u32)]);

/// A graph. Its points and shapes are numbered from 0 as they stand here.
#[derive(Clone, Copy)]
pub struct Sketch {
    pub vars: u32,
    pub shapes: &'static [Truth],
    pub places: &'static [Place],
    pub ways: &'static [Way],
    pub facts: &'static [Given],
}

/// A point, and the shapes that are wanted of variables there; then the answer, and how many states are reached, itself counted.
#[derive(Clone, Copy)]
pub struct Question(pub u32, pub &'static [(u32, u32)], pub Answer, pub u32);

/// A graph with its questions.
#[derive(Clone, Copy)]
pub struct Row {
    pub name: &'static str,
    pub graph: Sketch,
    pub questions: &'static [Question],
}

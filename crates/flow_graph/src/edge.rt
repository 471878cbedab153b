//! Edges, and what they ask of the way before them.
use place_ids::{PointId, ShapeId, VarId};

/// Whether the values of a shape are true.
#[derive(Clone, Copy, Debug, PartialEq, Eq)]
pub enum Truth {
    Yes,
    No,
    Both,
}

/// What an edge asks of a shape.
#[derive(Clone, Copy, Debug, PartialEq, Eq, Hash)]
pub enum Test {
    MayBeTrue,
    MayBeFalse,
    Is(ShapeId),
}

/// A variable, and what its shape has to pass.
#[derive(Clone, Copy, Debug, PartialEq, Eq, Hash)]
pub struct Ask {
    pub var: VarId,
    pub test: Test,
}

/// A way from a point to the next. One that assigns gives the target of its start the shape of a fact there.
#[derive(Clone, Copy, Debug, PartialEq, Eq, Hash)]
pub struct Edge {
    pub from: PointId,
    pub to: PointId,
    pub assigns: bool,
    pub asks: Option<Ask>,
}

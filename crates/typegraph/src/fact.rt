//! Facts.
use crate::goals::GoalMap;
use place_ids::{ShapeId, VarId};

/// What a point can give its target: a shape, where the memory holds the source set.
#[derive(Debug, Drop, PartialEq, Eq, Hash)]
pub struct Fact {
    pub shape: ShapeId,
    pub source: GoalMap,
}

/// Why a fact was not taken.
#[derive(Clone, Copy, Debug, PartialEq, Eq)]
pub enum FactFault {
    /// The source gives this variable two shapes: it is that of the first binding whose variable has another shape before it.
    TwoShapes(VarId),
    Memory,
}

//! States: points, and what is wanted there.
ghost use Rattle.std.specs.Prelude.{◌≡◌, IfOk};

use place_ids::PointId;
use std::alloc::AllocError;
use typegraph::GoalMap;

/// A point, and what is wanted there.
#[derive(Debug, Drop, PartialEq, Eq, Hash)]
pub struct State {
    pub point: PointId,
    pub goals: GoalMap,
}

impl State {
    /// The same state once more.
    pub fn copy(&self) -> Result<State, AllocError>
        ensures { IfOk result (λ copied. copied ≡ self.now) }
    {
        Ok(State {
            point: self.point,
            goals: self.goals.copy()?,
        })
    }
}

//! Ids of the parts of a typegraph.
ghost use Rattle.std.specs.Prelude.{ℕ};

use crate::Id;
use std::marker::Model;

/// Numbers a variable of a typegraph.
#[derive(Clone, Copy, Debug, PartialEq, Eq, Hash)]
pub struct VarId(u32);

impl Model for VarId {
    ghost Value = { ℕ };

    ghost view = { λ id. id.0 };

    ghost inverse = { λ number. record { 0 = number } };
}

impl Id for VarId {
    ghost value = { λ id. id };

    fn new(number: u32) -> VarId {
        VarId(number)
    }

    fn number(self) -> u32 {
        self.0
    }
}

/// Numbers a shape of a typegraph.
#[derive(Clone, Copy, Debug, PartialEq, Eq, Hash)]
pub struct ShapeId(u32);

impl Model for ShapeId {
    ghost Value = { ℕ };

    ghost view = { λ id. id.0 };

    ghost inverse = { λ number. record { 0 = number } };
}

impl Id for ShapeId {
    ghost value = { λ id. id };

    fn new(number: u32) -> ShapeId {
        ShapeId(number)
    }

    fn number(self) -> u32 {
        self.0
    }
}

/// Numbers a point of a typegraph.
#[derive(Clone, Copy, Debug, PartialEq, Eq, Hash)]
pub struct PointId(u32);

impl Model for PointId {
    ghost Value = { ℕ };

    ghost view = { λ id. id.0 };

    ghost inverse = { λ number. record { 0 = number } };
}

impl Id for PointId {
    ghost value = { λ id. id };

    fn new(number: u32) -> PointId {
        PointId(number)
    }

    fn number(self) -> u32 {
        self.0
    }
}

/// Numbers a call context of a typegraph.
#[derive(Clone, Copy, Debug, PartialEq, Eq, Hash)]
pub struct ContextId(u32);

impl Model for ContextId {
    ghost Value = { ℕ };

    ghost view = { λ id. id.0 };

    ghost inverse = { λ number. record { 0 = number } };
}

impl Id for ContextId {
    ghost value = { λ id. id };

    fn new(number: u32) -> ContextId {
        ContextId(number)
    }

    fn number(self) -> u32 {
        self.0
    }
}

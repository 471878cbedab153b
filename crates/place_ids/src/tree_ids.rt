//! Ids of what stands in a module's text.
ghost use Rattle.std.specs.Prelude.{ℕ};

use crate::Id;
use std::marker::Model;

/// Numbers a name of a table of names.
#[derive(Clone, Copy, Debug, PartialEq, Eq, Hash)]
pub struct NameId(u32);

impl Model for NameId {
    ghost Value = { ℕ };

    ghost view = { λ id. id.0 };

    ghost inverse = { λ number. record { 0 = number } };
}

impl Id for NameId {
    ghost value = { λ id. id };

    fn new(number: u32) -> NameId {
        NameId(number)
    }

    fn number(self) -> u32 {
        self.0
    }
}

/// Numbers a function of a module, in the order of its text.
#[derive(Clone, Copy, Debug, PartialEq, Eq, Hash)]
pub struct FunId(u32);

impl Model for FunId {
    ghost Value = { ℕ };

    ghost view = { λ id. id.0 };

    ghost inverse = { λ number. record { 0 = number } };
}

impl Id for FunId {
    ghost value = { λ id. id };

    fn new(number: u32) -> FunId {
        FunId(number)
    }

    fn number(self) -> u32 {
        self.0
    }
}

/// Numbers a class of a module, in the order of its text.
#[derive(Clone, Copy, Debug, PartialEq, Eq, Hash)]
pub struct ClassId(u32);

impl Model for ClassId {
    ghost Value = { ℕ };

    ghost view = { λ id. id.0 };

    ghost inverse = { λ number. record { 0 = number } };
}

impl Id for ClassId {
    ghost value = { λ id. id };

    fn new(number: u32) -> ClassId {
        ClassId(number)
    }

    fn number(self) -> u32 {
        self.0
    }
}

/// Numbers an expression of a module.
#[derive(Clone, Copy, Debug, PartialEq, Eq, Hash)]
pub struct SiteId(u32);

impl Model for SiteId {
    ghost Value = { ℕ };

    ghost view = { λ id. id.0 };

    ghost inverse = { λ number. record { 0 = number } };
}

impl Id for SiteId {
    ghost value = { λ id. id };

    fn new(number: u32) -> SiteId {
        SiteId(number)
    }

    fn number(self) -> u32 {
        self.0
    }
}

//! Places in a source text.
ghost use Rattle.std.specs.Prelude.{ℕ};

use crate::Id;
use std::marker::Model;

/// Numbers a line of the source, from 1.
#[derive(Clone, Copy, Debug, PartialEq, Eq, PartialOrd, Ord, Hash)]
pub struct LineNo(u32);

impl Model for LineNo {
    ghost Value = { ℕ };

    ghost view = { λ line. line.0 };

    ghost inverse = { λ number. record { 0 = number } };
}

impl Id for LineNo {
    ghost value = { λ line. line };

    fn new(number: u32) -> LineNo {
        LineNo(number)
    }

    fn number(self) -> u32 {
        self.0
    }
}

/// A part of the source: its bytes from `start` up to `end`, which is not one of them. `line` is the line of its start, from 1.
#[derive(Clone, Copy, Debug, PartialEq, Eq)]
pub struct Span {
    pub start: u32,
    pub end: u32,
    pub line: u32,
}

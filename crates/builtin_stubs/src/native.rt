//! The row of a native, and the number that it has.
ghost use Rattle.std.specs.Prelude.{ℕ, ◌≡◌, map};
ghost use Rattle.builtin_stubs.specs.Natives.{row_head, native};

use crate::Deed;
use place_ids::Id;
use std::marker::Model;

/// Numbers a native: the functions and classes first, then the methods kind by kind.
#[derive(Clone, Copy, Debug, PartialEq, Eq, Hash)]
pub struct NativeId(u32);

impl Model for NativeId {
    ghost Value = { ℕ };

    ghost view = { λ id. id.0 };

    ghost inverse = { λ number. record { 0 = number } };
}

impl Id for NativeId {
    ghost value = { λ id. id };

    fn new(number: u32) -> NativeId {
        NativeId(number)
    }

    fn number(self) -> u32 {
        self.0
    }
}

/// What a native is. A `Value` is not called.
#[derive(Clone, Copy, Debug, PartialEq, Eq)]
pub enum NativeSort {
    Function,
    Class,
    Method,
    Value,
}

/// A native, the arguments that it takes, by position and by name, and what it does.
#[derive(Clone, Copy, Debug)]
pub struct NativeRow {
    pub name: &'static str,
    pub sort: NativeSort,
    pub least: u32,
    /// None where there is no bound.
    pub most: Option<u32>,
    /// The arguments that are given by name alone.
    pub words: &'static [&'static str],
    /// Whether any argument may be given by name.
    pub any_words: bool,
    pub deed: Deed,
}

/// How many arguments a native takes by position, and whether any may be given by name.
#[derive(Clone, Copy, Debug)]
pub(crate) struct Takes {
    pub(crate) least: u32,
    pub(crate) most: Option<u32>,
    pub(crate) any_words: bool,
}

/// A native as a table has it: the arguments that are given by name alone stand before the deed.
pub(crate) type Entry = (
    &'static str,
    NativeSort,
    Takes,
    &'static [&'static str],
    Deed,
);

pub(crate) fn row_of(entry: &Entry) -> NativeRow
    ensures { row_head result ≡ native entry.now.0.now entry.now.1 entry.now.2 (map (λ word. word.now) entry.now.3.now) entry.now.4 }
{
    let (name, sort, takes, words, deed) = *entry;
    NativeRow {
        name,
        sort,
        least: takes.least,
        most: takes.most,
        words,
        any_words: takes.any_words,
        deed,
    }
}

//! What a row of the tables of natives speaks of: the parts that enter a receiver and that come back.
ghost use Rattle.std.specs.Prelude.{◌≡◌, slice_get};
ghost use Rattle.builtin_stubs.specs.Meanings.{parts_of, effects_in};

use crate::Basic;

/// Some of the values that are there as a native is called.
#[derive(Clone, Copy, Debug, PartialEq, Eq)]
pub enum Part {
    /// A value of a kind.
    Kind(Basic),
    /// The argument at a place, where it is given.
    Argument(u32),
    /// The argument at a place, and None where it isn't given.
    ArgumentOrNone(u32),
    /// What iterating the argument at a place gives.
    Items(u32),
    /// The keys of the argument at a place, and anything where it is no dict.
    Keys(u32),
    /// Its values, and anything where it is no dict.
    Values(u32),
    /// The names of the arguments that are given by name.
    WordNames,
    /// Those arguments.
    WordValues,
    /// What the receiver holds, if it is no dict.
    OwnElements,
    /// The keys of the receiver.
    OwnKeys,
    /// The values of the receiver.
    OwnValues,
}

/// A part, or two.
#[derive(Clone, Copy, Debug, PartialEq, Eq)]
pub enum Parts {
    One(Part),
    Two(Part, Part),
}

impl Parts {
    pub fn at(self, place: usize) -> Option<Part>
        ensures { result ≡ slice_get (parts_of self) place }
    {
        match (self, place) {
            (Parts::One(first) | Parts::Two(first, _), 0) => Some(first),
            (Parts::Two(_, second), 1) => Some(second),
            _ => None,
        }
    }
}

/// Where a part enters the receiver.
#[derive(Clone, Copy, Debug, PartialEq, Eq)]
pub enum Place {
    Elements,
    Keys,
    Values,
}

/// A part that enters the receiver, and where.
#[derive(Clone, Copy, Debug, PartialEq, Eq)]
pub struct Effect {
    pub place: Place,
    pub part: Part,
}

/// What enters the receiver, one after the other.
#[derive(Clone, Copy, Debug, PartialEq, Eq)]
pub enum Effects {
    Nothing,
    One(Effect),
    Two(Effect, Effect),
}

impl Effects {
    pub fn at(self, place: usize) -> Option<Effect>
        ensures { result ≡ slice_get (effects_in self) place }
    {
        match (self, place) {
            (Effects::One(first) | Effects::Two(first, _), 0) => Some(first),
            (Effects::Two(_, second), 1) => Some(second),
            _ => None,
        }
    }
}

/// What a call gives.
#[derive(Clone, Copy, Debug, PartialEq, Eq)]
pub enum Outcome {
    /// One of the parts.
    Gives(Parts),
    /// A list that is made here, with the parts.
    NewList(Parts),
    NewTuple(Parts),
    NewDict { keys: Parts, values: Parts },
    /// A view of the parts.
    View(Parts),
    /// A view of two-place tuples.
    PairView { first: Parts, second: Parts },
    /// Of one argument its items, of several the arguments.
    LeastOrMost,
    /// Whether the first argument is an instance of the second.
    TestsClass,
    /// A fresh object of no other kind.
    FreshObject,
    /// An instance of the class that is called.
    InstanceOfIt,
    TupleOfAnything,
    /// A value that isn't followed.
    NotFollowed,
}

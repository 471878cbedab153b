//! What natives do.
ghost use Rattle.std.specs.Prelude.{◌≡◌};
ghost use Rattle.builtin_stubs.specs.Meanings.{effects_of, outcome_of, effects_in};

use crate::{Basic, Effect, Effects, Outcome, Part, Parts, Place};

/// What a call of a native does to its receiver, and what it gives.
#[derive(Clone, Copy, Debug, PartialEq, Eq)]
pub enum Deed {
    /// Parts enter the receiver at its end, and the outcome comes back.
    ByParts(Effects, Outcome),
    /// Puts its second argument at any place of a list.
    Inserts,
    /// Takes any part out of a list, and gives it.
    PopsPart,
    /// Takes any part out of a list.
    RemovesPart,
    /// Takes all parts out.
    Clears,
    /// Gives a value of a dict, or its second argument.
    GetsValue,
    /// Takes any pair out of a dict and gives its value, or gives the second argument.
    PopsPair,
    /// Gives a value of a dict, or puts a pair of its arguments in.
    SetsDefault,
    /// Puts the pairs of its argument into a dict.
    Updates,
}

impl Deed {
    /// All that may enter the receiver.
    pub fn effects(self) -> Effects
        ensures { effects_in result ≡ effects_of self }
    {
        match self {
            Deed::ByParts(effects, _) => effects,
            Deed::Inserts => Effects::One(enters(Place::Elements, Part::Argument(1))),
            Deed::SetsDefault => Effects::Two(
                enters(Place::Keys, Part::Argument(0)),
                enters(Place::Values, Part::Argument(1)),
            ),
            Deed::Updates => Effects::Two(
                enters(Place::Keys, Part::Keys(0)),
                enters(Place::Values, Part::Values(0)),
            ),
            Deed::PopsPart | Deed::RemovesPart | Deed::Clears | Deed::GetsValue | Deed::PopsPair =>
                Effects::Nothing,
        }
    }

    /// All that may come back.
    pub fn outcome(self) -> Outcome
        ensures { result ≡ outcome_of self }
    {
        match self {
            Deed::ByParts(_, outcome) => outcome,
            Deed::PopsPart => Outcome::Gives(Parts::One(Part::OwnElements)),
            Deed::GetsValue => Outcome::Gives(Parts::Two(Part::OwnValues, Part::ArgumentOrNone(1))),
            Deed::PopsPair | Deed::SetsDefault => {
                Outcome::Gives(Parts::Two(Part::OwnValues, Part::Argument(1)))
            }
            Deed::Inserts | Deed::RemovesPart | Deed::Clears | Deed::Updates => {
                Outcome::Gives(Parts::One(Part::Kind(Basic::NoneKind)))
            }
        }
    }
}

fn enters(place: Place, part: Part) -> Effect
    ensures { result ≡ record { place = place; part = part } }
{
    Effect { place, part }
}

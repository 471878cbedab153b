//! The words in which the tables of natives are written.

/// Any arguments, by position and by name.
macro_rules! any {
    () => {
        crate::native::Takes {
            least: 0,
            most: None,
            any_words: true,
        }
    };
}

/// So many arguments by position, and none by name but those that the row names.
macro_rules! takes {
    ($count:literal) => {
        takes!($count to $count)
    };
    ($least:literal to $most:literal) => {
        crate::native::Takes {
            least: $least,
            most: Some($most),
            any_words: false,
        }
    };
    ($least:literal to any) => {
        crate::native::Takes {
            least: $least,
            most: None,
            any_words: false,
        }
    };
    ($least:literal to $most:literal and words) => {
        crate::native::Takes {
            least: $least,
            most: Some($most),
            any_words: true,
        }
    };
}

/// An outcome, where nothing enters a receiver.
macro_rules! only {
    ($outcome:expr) => {
        crate::Deed::ByParts(crate::Effects::Nothing, $outcome)
    };
}

/// A value of a kind comes back, and nothing enters.
macro_rules! gives {
    ($kind:ident) => {
        only!(crate::Outcome::Gives(crate::Parts::One(
            crate::Part::Kind(crate::Basic::$kind)
        )))
    };
}

/// A part enters the receiver, and None comes back.
macro_rules! enters {
    ($place:ident, $part:expr) => {
        crate::Deed::ByParts(
            crate::Effects::One(crate::Effect {
                place: crate::Place::$place,
                part: $part,
            }),
            crate::Outcome::Gives(crate::Parts::One(crate::Part::Kind(
                crate::Basic::NoneKind,
            ))),
        )
    };
}

pub(crate) use any;
pub(crate) use enters;
pub(crate) use gives;
pub(crate) use only;
pub(crate) use takes;

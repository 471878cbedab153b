//! What iterating, subscripts, `is` and `isinstance` do by kinds (language reference, "The for statement", "Subscriptions",
//! "Sameness comparisons"; library reference, "isinstance").
ghost use Rattle.std.specs.Prelude.{◌≡◌, map};
ghost use Rattle.type_terms.specs.View.{term_view};
ghost use Rattle.builtin_stubs.specs.Operands.{first_of};
ghost use Rattle.builtin_stubs.specs.Kinds.{items_of, part_by, part_of, identity, classes_of, kind_of_instance, kind_of_term};

use crate::Operand::{
    Anything, Binary, Fixed, Key, Mapping, Nothing, Number, Row, Span, Text, Truth, Viewed, Whole,
};
use crate::Part::{Kind, OwnElements, OwnKeys, OwnValues};
use crate::exceptions::is_exception;
use crate::operand::{first_of, first_of_two};
use crate::{Basic, Operand, Part};
use type_terms::TypeTerm;

/// What `is` tells of two values.
#[derive(Clone, Copy, Debug, PartialEq, Eq)]
pub enum Sameness {
    Same,
    Different,
    /// Truth values are the same where they are equal.
    AsTruths,
    Unknown,
}

/// What iterating a value gives.
pub(crate) const ITEMS: &[(Operand, Part)] = &[
    (Row, OwnElements),
    (Fixed, OwnElements),
    (Mapping, OwnKeys),
    (Viewed, OwnElements),
    (Text, Kind(Basic::Str)),
    (Binary, Kind(Basic::Int)),
    (Span, Kind(Basic::Int)),
];

/// A container, an index that it takes, and what it gives there.
pub(crate) const INDEX: &[(Operand, Operand, Part)] = &[
    (Row, Whole, OwnElements),
    (Fixed, Whole, OwnElements),
    (Text, Whole, Kind(Basic::Str)),
    (Binary, Whole, Kind(Basic::Int)),
    (Mapping, Key, OwnValues),
];

/// Of values of which it is known what they are. Of any other pair nothing is known.
pub(crate) const IDENTITY: &[(Operand, Operand, Sameness)] = &[
    (Nothing, Nothing, Sameness::Same),
    (Nothing, Anything, Sameness::Different),
    (Anything, Nothing, Sameness::Different),
    (Truth, Truth, Sameness::AsTruths),
];

/// The builtin classes of which a value is an instance, but for `object`.
pub(crate) const CLASSES: &[(Operand, &[&str])] = &[
    (Truth, &["bool", "int"]),
    (Whole, &["int"]),
    (Number, &["float"]),
    (Text, &["str"]),
    (Binary, &["bytes"]),
    (Row, &["list"]),
    (Mapping, &["dict"]),
    (Fixed, &["tuple"]),
    (Span, &["range"]),
];

/// What iterating a value of a kind gives, if it can be iterated.
pub(crate) fn items_of(kind: Basic) -> Option<Part>
    ensures { result ≡ items_of kind }
{
    first_of(ITEMS, kind)
}

/// What a container gives at an index.
pub(crate) fn part_by(container: Basic, index: Basic) -> Option<Part>
    ensures { result ≡ part_by container index }
{
    first_of_two(INDEX, container, index)
}

/// What a container gives at an index of which nothing is known.
pub(crate) fn part_of(container: Basic) -> Option<Part>
    ensures { result ≡ part_of container }
{
    first_of_left(INDEX, container)
}

fn first_of_left(rows: &[(Operand, Operand, Part)], container: Basic) -> Option<Part>
    ensures { result ≡ first_of (map (λ r. (r.0, r.2)) rows.now) container }
{
    for row in rows {
        if row.0.fits(container) {
            return Some(row.2);
        }
    }
    None
}

/// What `is` tells of two values by their kinds.
pub(crate) fn identity(left: Basic, right: Basic) -> Sameness
    ensures { result ≡ identity left right }
{
    first_of_two(IDENTITY, left, right).unwrap_or(Sameness::Unknown)
}

/// The builtin classes of a kind.
pub(crate) fn classes_of(kind: Basic) -> &'static [&'static str]
    ensures { map (λ name. name.now) result.now ≡ classes_of kind }
{
    first_of(CLASSES, kind).unwrap_or(&[])
}

/// The kind of the values of a declared type.
pub(crate) fn kind_of_type(term: &TypeTerm) -> Basic
    ensures { result ≡ kind_of_term (term_view term.now) }
{
    match term {
        TypeTerm::NoneTerm => Basic::NoneKind,
        TypeTerm::Bool => Basic::Bool,
        TypeTerm::Int => Basic::Int,
        TypeTerm::Float => Basic::Float,
        TypeTerm::Str => Basic::Str,
        TypeTerm::Bytes => Basic::Bytes,
        TypeTerm::List(_) => Basic::List,
        TypeTerm::Dict(..) => Basic::Dict,
        TypeTerm::Tuple(_) | TypeTerm::TupleOf(_) => Basic::Tuple,
        TypeTerm::Class(name) => kind_of_instance(name.bytes()),
        TypeTerm::Any | TypeTerm::ClassOf(_) | TypeTerm::Callable(_) | TypeTerm::Union(_) => {
            Basic::Other
        }
    }
}

fn kind_of_instance(name: &[u8]) -> Basic
    ensures { result ≡ kind_of_instance name.now }
{
    if name == b"range".as_slice() {
        Basic::Range
    } else if is_exception(name) {
        Basic::Exception
    } else {
        Basic::Other
    }
}

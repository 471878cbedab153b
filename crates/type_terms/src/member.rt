//! A member of a union that is put in order.
ghost use Rattle.std.specs.Prelude.{◌≡◌};
ghost use Rattle.type_terms.specs.Order.{key_of};
ghost use Rattle.type_terms.specs.View.{term_view};

use crate::TypeTerm;
use crate::key::Key;

/// A type with its key.
#[derive(Drop)]
pub(crate) struct Member {
    pub(crate) key: Key,
    pub(crate) term: TypeTerm,
    ghost keyed: { key ≡ key_of (term_view term) },
}

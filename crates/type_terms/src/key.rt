//! What orders the members of a union.
ghost use Rattle.std.specs.Prelude.{◌≡◌, IfOk};
ghost use Rattle.type_terms.specs.Order.{rank, key_of, key_cmp};
ghost use Rattle.type_terms.specs.View.{term_view};

use crate::TypeTerm;
use crate::code::term_code;
use crate::text::term_text;
use place_ids::Text;
use std::alloc::{AllocError, Global};
use std::cmp::Ordering;

/// A type's rank, its text, and its code, by which types of one text differ.
#[derive(Debug, Drop)]
pub(crate) struct Key {
    rank: u8,
    text: Text,
    code: Text,
}

fn rank(term: &TypeTerm) -> u8
    ensures { result ≡ rank (term_view term.now) }
{
    match term {
        TypeTerm::Bool => 0,
        TypeTerm::Int => 1,
        TypeTerm::Float => 2,
        TypeTerm::Str => 3,
        TypeTerm::Bytes => 4,
        TypeTerm::List(_) => 5,
        TypeTerm::Dict(_, _) => 6,
        TypeTerm::Tuple(_) => 7,
        TypeTerm::TupleOf(_) => 7,
        TypeTerm::Class(_) => 8,
        TypeTerm::ClassOf(_) => 9,
        TypeTerm::Callable(_) => 10,
        TypeTerm::NoneTerm => 11,
        TypeTerm::Any => 12,
        TypeTerm::Union(_) => 13,
    }
}

/// The key of a type.
pub(crate) fn make_key(alloc: Global, term: &TypeTerm) -> Result<Key, AllocError>
    ensures { IfOk result (λ made. made ≡ key_of (term_view term.now)) }
{
    Ok(Key {
        rank: rank(term),
        text: term_text(alloc, term)?,
        code: term_code(alloc, term)?,
    })
}

/// Rank decides, then text, then code.
pub(crate) fn compare(first: &Key, second: &Key) -> Ordering
    ensures { result ≡ key_cmp first.now second.now }
{
    first
        .rank
        .cmp(&second.rank)
        .then_with(|| first.text.bytes().cmp(second.text.bytes()))
        .then_with(|| first.code.bytes().cmp(second.code.bytes()))
}

//! Whether two types are the same.
ghost use Rattle.std.specs.Prelude.{◌≡◌};
ghost use Rattle.type_terms.specs.Terms.{list, tuple, tuple_of, class, class_of, callable, union};
ghost use Rattle.type_terms.specs.View.{term_view, terms_view};
ghost use Rattle.type_terms.specs.Same.{same_term, same_terms};

use crate::TypeTerm;
use place_ids::Text;

#[cycle(same)]
pub(crate) fn same_term(first: &TypeTerm, second: &TypeTerm) -> bool
    ensures { result ≡ same_term (term_view first.now) (term_view second.now) }
{
    match first {
        TypeTerm::Any => matches!(second, TypeTerm::Any),
        TypeTerm::NoneTerm => matches!(second, TypeTerm::NoneTerm),
        TypeTerm::Bool => matches!(second, TypeTerm::Bool),
        TypeTerm::Int => matches!(second, TypeTerm::Int),
        TypeTerm::Float => matches!(second, TypeTerm::Float),
        TypeTerm::Str => matches!(second, TypeTerm::Str),
        TypeTerm::Bytes => matches!(second, TypeTerm::Bytes),
        TypeTerm::List(item) => is_list(item, second),
        TypeTerm::Dict(key, value) => match second {
            TypeTerm::Dict(other, kept) => same_term(key, other) && same_term(value, kept),
            _ => false,
        },
        TypeTerm::Tuple(places) => is_tuple(places, second),
        TypeTerm::TupleOf(item) => is_tuple_of(item, second),
        TypeTerm::Class(name) => is_class(name, second),
        TypeTerm::ClassOf(name) => is_class_of(name, second),
        TypeTerm::Callable(answer) => is_callable(answer, second),
        TypeTerm::Union(members) => is_union(members, second),
    }
}

#[cycle(same)]
fn is_list(item: &TypeTerm, other: &TypeTerm) -> bool
    ensures { result ≡ same_term (list (term_view item.now)) (term_view other.now) }
{
    match other {
        TypeTerm::List(inner) => same_term(item, inner),
        _ => false,
    }
}

#[cycle(same)]
fn is_tuple(places: &[TypeTerm], other: &TypeTerm) -> bool
    ensures { result ≡ same_term (tuple (terms_view places.now)) (term_view other.now) }
{
    match other {
        TypeTerm::Tuple(others) => same_terms(places, others),
        _ => false,
    }
}

#[cycle(same)]
fn is_tuple_of(item: &TypeTerm, other: &TypeTerm) -> bool
    ensures { result ≡ same_term (tuple_of (term_view item.now)) (term_view other.now) }
{
    match other {
        TypeTerm::TupleOf(inner) => same_term(item, inner),
        _ => false,
    }
}

fn is_class(name: &Text, other: &TypeTerm) -> bool
    ensures { result ≡ same_term (class name.now) (term_view other.now) }
{
    match other {
        TypeTerm::Class(second) => name.bytes() == second.bytes(),
        _ => false,
    }
}

fn is_class_of(name: &Text, other: &TypeTerm) -> bool
    ensures { result ≡ same_term (class_of name.now) (term_view other.now) }
{
    match other {
        TypeTerm::ClassOf(second) => name.bytes() == second.bytes(),
        _ => false,
    }
}

#[cycle(same)]
fn is_callable(answer: &TypeTerm, other: &TypeTerm) -> bool
    ensures { result ≡ same_term (callable (term_view answer.now)) (term_view other.now) }
{
    match other {
        TypeTerm::Callable(inner) => same_term(answer, inner),
        _ => false,
    }
}

#[cycle(same)]
fn is_union(members: &[TypeTerm], other: &TypeTerm) -> bool
    ensures { result ≡ same_term (union (terms_view members.now)) (term_view other.now) }
{
    match other {
        TypeTerm::Union(others) => same_terms(members, others),
        _ => false,
    }
}

#[cycle(same)]
fn same_terms(first: &[TypeTerm], second: &[TypeTerm]) -> bool
    ensures { result ≡ same_terms (terms_view first.now) (terms_view second.now) }
{
    if first.len() != second.len() {
        return false;
    }
    for (place, term) in first.iter().enumerate() {
        if !same_term(term, &second[place]) {
            return false;
        }
    }
    true
}

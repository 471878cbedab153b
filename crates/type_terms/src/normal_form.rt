//! The normal form of a type.
ghost use Rattle.std.specs.Prelude.{◌≡◌, IfOk, map, length, ◌<◌};
ghost use Rattle.type_terms.specs.Normal.{IsNormalOf, AreNormalOf, IsUnionOf, parts_of, has_any};
ghost use Rattle.type_terms.specs.Ordered.{member_terms, united};
ghost use Rattle.type_terms.specs.Terms.{terms_of};
ghost use Rattle.type_terms.specs.View.{term_view, terms_view};

use crate::TypeTerm;
use crate::absorbed::exceptions_among;
use crate::copied::copy_text;
use crate::member::Member;
use crate::ordered::ordered;
use crate::parts::{all_parts, has_any};
use std::alloc::{AllocError, Global};

/// The normal form of a type. The term that is handed in is dropped.
pub fn normal(alloc: Global, term: TypeTerm) -> Result<TypeTerm, AllocError>
    ensures { IfOk result (λ made. IsNormalOf (term_view term) (term_view made)) }
{
    normal_of(alloc, &term)
}

#[cycle(normal)]
fn normal_of(alloc: Global, term: &TypeTerm) -> Result<TypeTerm, AllocError>
    ensures { IfOk result (λ made. IsNormalOf (term_view term.now) (term_view made)) }
{
    match term {
        TypeTerm::Any => Ok(TypeTerm::Any),
        TypeTerm::NoneTerm => Ok(TypeTerm::NoneTerm),
        TypeTerm::Bool => Ok(TypeTerm::Bool),
        TypeTerm::Int => Ok(TypeTerm::Int),
        TypeTerm::Float => Ok(TypeTerm::Float),
        TypeTerm::Str => Ok(TypeTerm::Str),
        TypeTerm::Bytes => Ok(TypeTerm::Bytes),
        TypeTerm::List(item) => Ok(TypeTerm::List(normal_box(alloc, item)?)),
        TypeTerm::Dict(key, value) => Ok(TypeTerm::Dict(
            normal_box(alloc, key)?,
            normal_box(alloc, value)?,
        )),
        TypeTerm::Tuple(places) => Ok(TypeTerm::Tuple(normal_terms(alloc, places)?)),
        TypeTerm::TupleOf(item) => Ok(TypeTerm::TupleOf(normal_box(alloc, item)?)),
        TypeTerm::Class(name) => Ok(TypeTerm::Class(copy_text(alloc, name.bytes())?)),
        TypeTerm::ClassOf(name) => Ok(TypeTerm::ClassOf(copy_text(alloc, name.bytes())?)),
        TypeTerm::Callable(answer) => Ok(TypeTerm::Callable(normal_box(alloc, answer)?)),
        TypeTerm::Union(members) => union_of(alloc, normal_terms(alloc, members)?),
    }
}

#[cycle(normal)]
fn normal_box(alloc: Global, term: &TypeTerm) -> Result<Box<TypeTerm>, AllocError>
    ensures { IfOk result (λ made. IsNormalOf (term_view term.now) (term_view made.value)) }
{
    let made = normal_of(alloc, term)?;
    Ok(Box::new(alloc, made)?)
}

#[cycle(normal)]
fn normal_terms(alloc: Global, terms: &[TypeTerm]) -> Result<Vec<TypeTerm>, AllocError>
    ensures { IfOk result (λ made. AreNormalOf (terms_view terms.now) (terms_view made.items)) }
{
    let mut made = Vec::new(alloc);
    for term in terms {
        made.push(normal_of(alloc, term)?)?;
    }
    Ok(made)
}

// The union of members that are in normal form.
fn union_of(alloc: Global, members: Vec<TypeTerm>) -> Result<TypeTerm, AllocError>
    ensures { IfOk result (λ made. IsUnionOf (parts_of (terms_view members.items)) (term_view made)) }
{
    let parts = all_parts(alloc, members)?;
    if has_any(&parts) {
        return Ok(TypeTerm::Any);
    }
    let names = exceptions_among(alloc, &parts)?;
    united(alloc, ordered(alloc, parts, &names)?)
}

// One member stands alone, and none are `Any`.
fn united(alloc: Global, members: Vec<Member>) -> Result<TypeTerm, AllocError>
    ensures { IfOk result (λ made. term_view made ≡ united (member_terms members.items)) }
{
    let mut terms = Vec::new(alloc);
    for member in members {
        let Member { term, .. } = member;
        terms.push(term)?;
    }
    Ok(join(terms))
}

fn join(terms: Vec<TypeTerm>) -> TypeTerm
    ensures { term_view result ≡ united (map term_view terms.items) }
{
    let mut terms = terms;
    if terms.len() > 1 {
        return TypeTerm::Union(terms);
    }
    terms.pop().unwrap_or(TypeTerm::Any)
}

//! Copies of texts and of types.
ghost use Rattle.std.specs.Prelude.{◌≡◌, IfOk};
ghost use Rattle.type_terms.specs.View.{term_view, terms_view};

use crate::TypeTerm;
use place_ids::Text;
use std::alloc::{AllocError, Global};

pub(crate) fn copy_text(alloc: Global, bytes: &[u8]) -> Result<Text, AllocError>
    ensures { IfOk result (λ made. made ≡ bytes.now) }
{
    let mut made = Text::new(alloc);
    made.push(bytes)?;
    Ok(made)
}

#[cycle(copy)]
pub(crate) fn copy_term(alloc: Global, term: &TypeTerm) -> Result<TypeTerm, AllocError>
    ensures { IfOk result (λ made. term_view made ≡ term_view term.now) }
{
    match term {
        TypeTerm::Any => Ok(TypeTerm::Any),
        TypeTerm::NoneTerm => Ok(TypeTerm::NoneTerm),
        TypeTerm::Bool => Ok(TypeTerm::Bool),
        TypeTerm::Int => Ok(TypeTerm::Int),
        TypeTerm::Float => Ok(TypeTerm::Float),
        TypeTerm::Str => Ok(TypeTerm::Str),
        TypeTerm::Bytes => Ok(TypeTerm::Bytes),
        TypeTerm::List(item) => Ok(TypeTerm::List(copy_box(alloc, item)?)),
        TypeTerm::Dict(key, value) => Ok(TypeTerm::Dict(
            copy_box(alloc, key)?,
            copy_box(alloc, value)?,
        )),
        TypeTerm::Tuple(places) => Ok(TypeTerm::Tuple(copy_terms(alloc, places)?)),
        TypeTerm::TupleOf(item) => Ok(TypeTerm::TupleOf(copy_box(alloc, item)?)),
        TypeTerm::Class(name) => Ok(TypeTerm::Class(copy_text(alloc, name.bytes())?)),
        TypeTerm::ClassOf(name) => Ok(TypeTerm::ClassOf(copy_text(alloc, name.bytes())?)),
        TypeTerm::Callable(answer) => Ok(TypeTerm::Callable(copy_box(alloc, answer)?)),
        TypeTerm::Union(members) => Ok(TypeTerm::Union(copy_terms(alloc, members)?)),
    }
}

#[cycle(copy)]
fn copy_box(alloc: Global, term: &TypeTerm) -> Result<Box<TypeTerm>, AllocError>
    ensures { IfOk result (λ made. term_view made.value ≡ term_view term.now) }
{
    let made = copy_term(alloc, term)?;
    Ok(Box::new(alloc, made)?)
}

#[cycle(copy)]
fn copy_terms(alloc: Global, terms: &[TypeTerm]) -> Result<Vec<TypeTerm>, AllocError>
    ensures { IfOk result (λ made. terms_view made.items ≡ terms_view terms.now) }
{
    let mut made = Vec::new(alloc);
    for term in terms {
        made.push(copy_term(alloc, term)?)?;
    }
    Ok(made)
}

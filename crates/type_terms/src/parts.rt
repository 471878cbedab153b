//! The parts of a union's members.
ghost use Rattle.std.specs.Prelude.{◌≡◌, ◌++◌, map, IfOk, OnOk};
ghost use Rattle.type_terms.specs.Normal.{parts, parts_of, is_any, has_any};
ghost use Rattle.type_terms.specs.View.{term_view, terms_view};

use crate::TypeTerm;
use std::alloc::{AllocError, Global};

/// The members of each union, and every other type, in one list.
pub(crate) fn all_parts(alloc: Global, members: Vec<TypeTerm>) -> Result<Vec<TypeTerm>, AllocError>
    ensures { IfOk result (λ all. map term_view all.items ≡ parts_of (terms_view members.items)) }
{
    let mut all = Vec::new(alloc);
    for member in members {
        add_parts(&mut all, member)?;
    }
    Ok(all)
}

fn add_parts(all: &mut Vec<TypeTerm>, member: TypeTerm) -> Result<(), AllocError>
    ensures { OnOk result (map term_view all.new.items ≡ map term_view all.old.items ++ parts (term_view member)) }
{
    match member {
        TypeTerm::Union(mut members) => all.append(&mut members)?,
        other => all.push(other)?,
    }
    Ok(())
}

/// Whether `Any` is one of the parts.
pub(crate) fn has_any(parts: &[TypeTerm]) -> bool
    ensures { result ≡ has_any (map term_view parts.now) }
{
    for part in parts {
        if is_any(part) {
            return true;
        }
    }
    false
}

fn is_any(part: &TypeTerm) -> bool
    ensures { result ≡ is_any (term_view part.now) }
{
    matches!(part, TypeTerm::Any)
}

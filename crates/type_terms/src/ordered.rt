//! The members of a union in order.
ghost use Rattle.std.specs.Prelude.{◌≡◌, map, IfOk, OnOk};
ghost use Rattle.std.specs.Ordering.{is_eq};
ghost use Rattle.type_terms.specs.Order.{key_cmp};
ghost use Rattle.type_terms.specs.Ordered.{AreInOrder, member_terms, staying};
ghost use Rattle.type_terms.specs.View.{term_view};

use crate::TypeTerm;
use crate::absorbed::is_below;
use crate::key::{compare, make_key};
use crate::member::Member;
use std::alloc::{AllocError, Global};
use std::cmp::Ordering;

/// The parts that are not below one of the names, each once, in order.
pub(crate) fn ordered(
    alloc: Global,
    parts: Vec<TypeTerm>,
    names: &[&str],
) -> Result<Vec<Member>, AllocError>
    ensures { IfOk result (λ members. AreInOrder (staying (map (λ name. name.now) names.now) (map term_view parts.items)) (member_terms members.items)) }
{
    let mut members = staying(alloc, parts, names)?;
    put_in_order(&mut members)?;
    Ok(members)
}

// The parts that are not below one of the names, with their keys.
fn staying(alloc: Global, parts: Vec<TypeTerm>, names: &[&str]) -> Result<Vec<Member>, AllocError>
    ensures { IfOk result (λ members. member_terms members.items ≡ staying (map (λ name. name.now) names.now) (map term_view parts.items)) }
{
    let mut members = Vec::new(alloc);
    for part in parts {
        if !is_below(names, &part) {
            let key = make_key(alloc, &part)?;
            members.push(Member { key, term: part })?;
        }
    }
    Ok(members)
}

// Sorts members, and keeps the first of each type.
fn put_in_order(members: &mut Vec<Member>) -> Result<(), AllocError>
    ensures { OnOk result (AreInOrder (member_terms members.old.items) (member_terms members.new.items)) }
{
    members.sort_by(|first, second| compare(&first.key, &second.key))?;
    members.dedup_by(
        |first: &mut Member, second: &mut Member| -> bool
            ensures same { result ≡ is_eq (key_cmp first.old.key second.old.key) }
            ensures first { first.new ≡ first.old }
            ensures second { second.new ≡ second.old }
        { compare(&first.key, &second.key) == Ordering::Equal },
    );
    Ok(())
}

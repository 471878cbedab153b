//! Which exception classes go, since a class above them stands beside them.
ghost use Rattle.std.specs.Prelude.{◌≡◌, ℕ, List, ◌||◌, map, option_map, IfOk, OnOk};
ghost use Rattle.std.specs.List.{list_any};
ghost use Rattle.std.specs.Str.{bytes_eq};
ghost use Rattle.type_terms.specs.Normal.{above};
ghost use Rattle.type_terms.specs.Ordered.{Tells, exception_of, is_below};
ghost use Rattle.type_terms.specs.View.{term_view};

use crate::TypeTerm;
use crate::exceptions::chain_of;
use std::alloc::{AllocError, Global};

/// The builtin exception classes among some parts.
pub(crate) fn exceptions_among(
    alloc: Global,
    parts: &[TypeTerm],
) -> Result<Vec<&'static str>, AllocError>
    ensures { IfOk result (λ names. Tells (map (λ name. name.now) names.items) (map term_view parts.now)) }
{
    let mut names = Vec::new(alloc);
    for part in parts {
        if let Some(name) = exception_name(part) {
            add_name(&mut names, name)?;
        }
    }
    Ok(names)
}

/// Whether a class above this one is among the names.
pub(crate) fn is_below(names: &[&str], part: &TypeTerm) -> bool
    ensures { result ≡ is_below (map (λ name. name.now) names.now) (term_view part.now) }
{
    match part {
        TypeTerm::Class(name) => has_one_above(names, chain_of(name.bytes())),
        _ => false,
    }
}

// The name of a builtin exception class.
fn exception_name(part: &TypeTerm) -> Option<&'static str>
    ensures { option_map (λ name. name.now) result ≡ exception_of (term_view part.now) }
{
    match part {
        TypeTerm::Class(name) => chain_of(name.bytes()).first().copied(),
        _ => None,
    }
}

// Puts a name at the end, unless it is there.
fn add_name(names: &mut Vec<&'static str>, name: &'static str) -> Result<(), AllocError>
    ensures { OnOk result ((other : List ℕ) → list_any (bytes_eq other) (map (λ known. known.now) names.new.items) ≡ (list_any (bytes_eq other) (map (λ known. known.now) names.old.items) || bytes_eq other name.now)) }
{
    if !has_name(names, name) {
        names.push(name)?;
    }
    Ok(())
}

fn has_name(names: &[&str], name: &str) -> bool
    ensures { result ≡ list_any (bytes_eq name.now) (map (λ known. known.now) names.now) }
{
    for known in names {
        if name == *known {
            return true;
        }
    }
    false
}

// Whether a class of a chain, other than its first, is among the names.
fn has_one_above(names: &[&str], chain: &[&str]) -> bool
    ensures { result ≡ list_any (λ up. list_any (bytes_eq up) (map (λ known. known.now) names.now)) (above (map (λ class. class.now) chain.now)) }
{
    match chain {
        [_, above @ ..] => has_one_of(names, above),
        [] => false,
    }
}

fn has_one_of(names: &[&str], classes: &[&str]) -> bool
    ensures { result ≡ list_any (λ up. list_any (bytes_eq up) (map (λ known. known.now) names.now)) (map (λ class. class.now) classes.now) }
{
    for class in classes {
        if has_name(names, class) {
            return true;
        }
    }
    false
}

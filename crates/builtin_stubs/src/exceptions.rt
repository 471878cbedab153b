//! The builtin exception classes as natives, each at its place among the chains of `type_terms` (library reference, "Built-in Exceptions").
ghost use Rattle.std.specs.Prelude.{◌≡◌, ◌≤◌, ◌+◌, ◌<◌, length, map, slice_get};
ghost use Rattle.std.specs.List.{list_any};
ghost use Rattle.std.specs.Str.{bytes_eq};
ghost use Rattle.type_terms.specs.Exceptions.{exception_names, is_exception};
ghost use Rattle.builtin_stubs.specs.Exceptions.{class_of};
ghost use Rattle.builtin_stubs.specs.Natives.{exception_native, number_in, row_head};

use crate::Outcome::InstanceOfIt;
use crate::entries::only;
use crate::{NativeId, NativeRow, NativeSort};
use place_ids::Id;
use type_terms::exception_chains;

/// How many exception classes there are.
pub(crate) fn exception_count() -> usize
    ensures { result ≡ length exception_names }
{
    exception_chains().len()
}

/// Whether a name is that of an exception class.
pub(crate) fn is_exception(name: &[u8]) -> bool
    ensures { result ≡ is_exception name.now }
{
    is_class_among(name, exception_chains())
}

fn is_class_among(name: &[u8], chains: &[&[&str]]) -> bool
    ensures { result ≡ list_any (bytes_eq name.now) (map (λ chain. class_of (map (λ class. class.now) chain.now)) chains.now) }
{
    for chain in chains {
        if name == class_of(chain).as_bytes() {
            return true;
        }
    }
    false
}

/// The number of an exception class, where so many natives stand before the first.
pub(crate) fn find_exception(before: u32, name: &str) -> Option<NativeId>
    requires { before ≤ 900 }
    ensures { result ≡ number_in before (map exception_native exception_names) name.now }
{
    find_class(before, exception_chains(), name)
}

fn find_class(before: u32, chains: &[&[&str]], name: &str) -> Option<NativeId>
    requires { before + length chains.now ≤ 1000 }
    ensures { result ≡ number_in before (map (λ chain. exception_native (class_of (map (λ class. class.now) chain.now))) chains.now) name.now }
{
    let mut number = before;
    for chain in chains {
        if name == class_of(chain) {
            return Some(NativeId::new(number));
        }
        number += 1;
    }
    None
}

/// The exception class at a place.
pub(crate) fn exception_at(place: usize) -> NativeRow
    requires { place < length exception_names }
    ensures { Some (row_head result) ≡ slice_get (map exception_native exception_names) place }
{
    let chains = exception_chains();
    row_of_class(class_of(chains[place]))
}

// The class of a chain is its first.
fn class_of<'a>(chain: &[&'a str]) -> &'a str
    ensures { result.now ≡ class_of (map (λ class. class.now) chain.now) }
{
    match chain {
        [class, ..] => class,
        [] => "",
    }
}

fn row_of_class(name: &'static str) -> NativeRow
    ensures { row_head result ≡ exception_native name.now }
{
    NativeRow {
        name,
        sort: NativeSort::Class,
        least: 0,
        most: None,
        words: &[],
        any_words: false,
        deed: only!(InstanceOfIt),
    }
}

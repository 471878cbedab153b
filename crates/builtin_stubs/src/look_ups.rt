//! Look-ups in the tables of natives.
ghost use Rattle.std.specs.Prelude.{◌≡◌, ◌<◌, ◌≤◌, ◌+◌, ◌++◌, Some, length, map, option_map, slice_get};
ghost use Rattle.std.specs.List.{flat_map};
ghost use Rattle.builtin_stubs.specs.Natives.{native, methods_of, before_methods, number_in, function_number, row_head, native_head, function_natives, other_natives, list_natives, dict_natives, tuple_natives, str_natives, bytes_natives, int_natives, float_natives, exception_natives};

use crate::bytes_methods::{BYTES_METHODS, EXCEPTION_METHODS, FLOAT_METHODS, INT_METHODS};
use crate::container_methods::{DICT_METHODS, LIST_METHODS, TUPLE_METHODS};
use crate::exceptions::{exception_at, exception_count, find_exception};
use crate::functions::{FUNCTIONS, OTHERS};
use crate::native::{Entry, row_of};
use crate::str_methods::STR_METHODS;
use crate::{Basic, NativeId, NativeRow};
use place_ids::Id;

const BEFORE_DICT: u32 = LIST_METHODS.len() as u32;

const BEFORE_TUPLE: u32 = BEFORE_DICT + DICT_METHODS.len() as u32;

const BEFORE_STR: u32 = BEFORE_TUPLE + TUPLE_METHODS.len() as u32;

const BEFORE_BYTES: u32 = BEFORE_STR + STR_METHODS.len() as u32;

const BEFORE_INT: u32 = BEFORE_BYTES + BYTES_METHODS.len() as u32;

const BEFORE_FLOAT: u32 = BEFORE_INT + INT_METHODS.len() as u32;

const BEFORE_EXCEPTION: u32 = BEFORE_FLOAT + FLOAT_METHODS.len() as u32;

/// How many functions and classes there are.
fn function_count() -> usize
    ensures number { result ≡ length function_natives }
    ensures few { result ≤ 100 }
{
    FUNCTIONS.len() + exception_count() + OTHERS.len()
}

/// The number of a function or a class.
pub(crate) fn find_function(name: &str) -> Option<NativeId>
    ensures { result ≡ function_number name.now }
{
    let before = FUNCTIONS.len();
    if let Some(id) = find_native(0, FUNCTIONS, name) {
        return Some(id);
    }
    if let Some(id) = find_exception(before as u32, name) {
        return Some(id);
    }
    let before = before + exception_count();
    find_native(before as u32, OTHERS, name)
}

/// The methods of a kind.
pub(crate) fn methods_of(kind: Basic) -> &'static [Entry]
    ensures rows { map (λ e. native e.0.now e.1 e.2 (map (λ word. word.now) e.3.now) e.4) result.now ≡ methods_of kind }
    ensures few { length result.now ≤ 100 }
{
    match kind {
        Basic::List => LIST_METHODS,
        Basic::Dict => DICT_METHODS,
        Basic::Tuple => TUPLE_METHODS,
        Basic::Str => STR_METHODS,
        Basic::Bytes => BYTES_METHODS,
        Basic::Int | Basic::Bool => INT_METHODS,
        Basic::Float => FLOAT_METHODS,
        Basic::Exception => EXCEPTION_METHODS,
        _ => &[],
    }
}

/// How many natives stand before the methods of a kind.
pub(crate) fn before_methods(kind: Basic) -> u32
    ensures number { result ≡ before_methods kind }
    ensures few { result ≤ 900 }
{
    let functions = function_count() as u32;
    match kind {
        Basic::List => functions,
        Basic::Dict => functions + BEFORE_DICT,
        Basic::Tuple => functions + BEFORE_TUPLE,
        Basic::Str => functions + BEFORE_STR,
        Basic::Bytes => functions + BEFORE_BYTES,
        Basic::Int | Basic::Bool => functions + BEFORE_INT,
        Basic::Float => functions + BEFORE_FLOAT,
        Basic::Exception => functions + BEFORE_EXCEPTION,
        _ => 0,
    }
}

/// The number of the first row with a name, where so many natives stand before the rows.
pub(crate) fn find_native(before: u32, rows: &[Entry], name: &str) -> Option<NativeId>
    requires { before + length rows.now ≤ 1000 }
    ensures { result ≡ number_in before (map (λ e. native e.0.now e.1 e.2 (map (λ word. word.now) e.3.now) e.4) rows.now) name.now }
{
    let mut number = before;
    for row in rows {
        if name == row.0 {
            return Some(NativeId::new(number));
        }
        number += 1;
    }
    None
}

/// The row with a number.
pub(crate) fn native_at(number: usize) -> Option<NativeRow>
    ensures { option_map row_head result ≡ native_head number }
{
    if number < FUNCTIONS.len() {
        return Some(row_at(FUNCTIONS, number));
    }
    let place = number - FUNCTIONS.len();
    if place < exception_count() {
        return Some(exception_at(place));
    }
    row_behind(place - exception_count())
}

fn row_at(rows: &[Entry], place: usize) -> NativeRow
    requires { place < length rows.now }
    ensures { Some (row_head result) ≡ slice_get (map (λ e. native e.0.now e.1 e.2 (map (λ word. word.now) e.3.now) e.4) rows.now) place }
{
    row_of(&rows[place])
}

// The row at a place behind the exceptions.
fn row_behind(place: usize) -> Option<NativeRow>
    ensures { option_map row_head result ≡ slice_get (other_natives ++ list_natives ++ dict_natives ++ tuple_natives ++ str_natives ++ bytes_natives ++ int_natives ++ float_natives ++ exception_natives) place }
{
    let groups: [&[Entry]; 9] = [
        OTHERS,
        LIST_METHODS,
        DICT_METHODS,
        TUPLE_METHODS,
        STR_METHODS,
        BYTES_METHODS,
        INT_METHODS,
        FLOAT_METHODS,
        EXCEPTION_METHODS,
    ];
    row_in(&groups, place)
}

// The row at a place of groups that stand one behind another.
fn row_in(groups: &[&[Entry]], place: usize) -> Option<NativeRow>
    ensures { option_map row_head result ≡ slice_get (flat_map (λ group. map (λ e. native e.0.now e.1 e.2 (map (λ word. word.now) e.3.now) e.4) group.now) groups.now) place }
{
    let mut left = place;
    for group in groups {
        if left < group.len() {
            return Some(row_of(&group[left]));
        }
        left -= group.len();
    }
    None
}

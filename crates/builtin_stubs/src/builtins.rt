//! What the tables say, as calls.
ghost use Rattle.std.specs.Prelude.{◌≡◌, map, option_map};
ghost use Rattle.std.specs.List.{list_any};
ghost use Rattle.std.specs.Str.{bytes_eq};
ghost use Rattle.type_terms.specs.View.{term_view};
ghost use Rattle.builtin_stubs.specs.Kinds.{items_of, part_by, part_of, identity, classes_of, kind_of_term};
ghost use Rattle.builtin_stubs.specs.Natives.{function_number, method_number, row_head, native_head};
ghost use Rattle.builtin_stubs.specs.Operators.{op_kinds, unary_kinds, compare_kinds, answer};
ghost use Rattle.builtin_stubs.specs.Outside.{outside_names};

use crate::look_ups::{before_methods, find_function, find_native, methods_of, native_at};
use crate::{Basic, NativeId, NativeRow, OpRow, Part, Sameness, kinds, operators, outside};
use place_ids::{BinOp, CompareOp, Id, UnaryOp};
use type_terms::TypeTerm;

/// The tables of what Python itself has.
#[derive(Clone, Copy, Debug)]
pub struct Builtins;

impl Builtins {
    /// The number of a function or a class. `base_init` is among them, though no name of a module means it.
    pub fn fun(&self, name: &str) -> Option<NativeId>
        ensures { result ≡ function_number name.now }
    {
        find_function(name)
    }

    /// The number of a method, or of another attribute, of a kind of values.
    pub fn attr(&self, kind: Basic, name: &str) -> Option<NativeId>
        ensures { result ≡ method_number kind name.now }
    {
        find_native(before_methods(kind), methods_of(kind), name)
    }

    /// The native under a number.
    pub fn row(&self, id: NativeId) -> Option<NativeRow>
        ensures { option_map row_head result ≡ native_head id }
    {
        native_at(id.number() as usize)
    }

    /// Whether a builtin name is one whose value is not followed.
    pub fn is_outside(&self, name: &str) -> bool
        ensures { result ≡ list_any (bytes_eq name.now) outside_names }
    {
        outside::is_outside(name)
    }

    /// What an operator gives for two kinds of operands.
    pub fn binary(&self, op: BinOp, left: Basic, right: Basic) -> OpRow
        ensures { answer result ≡ op_kinds op left right }
    {
        operators::operate(op, left, right)
    }

    /// What an operator gives for a kind of its one operand.
    pub fn unary(&self, op: UnaryOp, kind: Basic) -> OpRow
        ensures { answer result ≡ unary_kinds op kind }
    {
        operators::operate_on_one(op, kind)
    }

    /// What a comparison gives for two kinds of operands.
    pub fn compare(&self, op: CompareOp, left: Basic, right: Basic) -> OpRow
        ensures { answer result ≡ compare_kinds op left right }
    {
        operators::compare(op, left, right)
    }

    /// What `is` tells of two values of which it is known what they are.
    pub fn identity(&self, left: Basic, right: Basic) -> Sameness
        ensures { result ≡ identity left right }
    {
        kinds::identity(left, right)
    }

    /// What iterating a value of a kind gives. It is None where that is a fault.
    pub fn items_of(&self, kind: Basic) -> Option<Part>
        ensures { result ≡ items_of kind }
    {
        kinds::items_of(kind)
    }

    /// What a container gives at an index of a kind. It is None where that is a fault.
    pub fn part_by(&self, container: Basic, index: Basic) -> Option<Part>
        ensures { result ≡ part_by container index }
    {
        kinds::part_by(container, index)
    }

    /// What a container gives at an index that may be anything. It is None where no index is taken.
    pub fn part_of(&self, container: Basic) -> Option<Part>
        ensures { result ≡ part_of container }
    {
        kinds::part_of(container)
    }

    /// The builtin classes that the values of a kind are instances of, but for `object`.
    pub fn classes_of(&self, kind: Basic) -> &'static [&'static str]
        ensures { map (λ name. name.now) result.now ≡ classes_of kind }
    {
        kinds::classes_of(kind)
    }

    /// The kind of the values of a declared type. Of a union, and of a type that says nothing, it is `Other`.
    pub fn kind_of_type(&self, term: &TypeTerm) -> Basic
        ensures { result ≡ kind_of_term (term_view term.now) }
    {
        kinds::kind_of_type(term)
    }
}

//! The rows of operators (language reference, "Unary arithmetic and bitwise operations", "Binary arithmetic operations", "Comparisons").
ghost use Rattle.std.specs.Prelude.{◌≡◌, true, not, option_map, IfOk};
ghost use Rattle.std.specs.List.{flat_map};
ghost use Rattle.builtin_stubs.specs.Operators.{answer, looks_within};
ghost use Rattle.world_rules.specs.Operators.{gives, marked, of_kind, by_kinds, unfollowed, unary, binary, inverted, same_truths, is_same, known_truth, ordered, within, compare};

use crate::rows::{faults, gives, no_row};
use crate::traits::{is_any, is_anything, is_unfollowed};
use builtin_stubs::{Basic, Builtins, OpRow, Sameness};
use flow_graph::Truth;
use place_ids::{BinOp, CompareOp, UnaryOp};
use sqlite_items::Items;
use std::alloc::{AllocError, Global};
use world_rules::{Fault, ShapeTraits, TransferRow, Yield};

/// An operator of one operand.
pub(crate) fn unary(
    alloc: Global,
    op: UnaryOp,
    traits: ShapeTraits,
) -> Result<TransferRow, AllocError>
    ensures { IfOk result (λ row. row ≡ unary op traits) }
{
    if is_unfollowed(traits) {
        return unfollowed(alloc, is_any(traits));
    }
    by_kinds(alloc, Fault::Unary(op), Builtins.unary(op, traits.kind))
}

/// An operator of two operands. The fault is that of an operator or of an augmented assignment.
pub(crate) fn binary(
    alloc: Global,
    fault: Fault,
    op: BinOp,
    left: ShapeTraits,
    right: ShapeTraits,
) -> Result<TransferRow, AllocError>
    ensures { IfOk result (λ row. row ≡ binary fault op left right) }
{
    if is_unfollowed(left) || is_unfollowed(right) {
        return unfollowed(alloc, is_any(left) || is_any(right));
    }
    by_kinds(alloc, fault, Builtins.binary(op, left.kind, right.kind))
}

/// A comparison.
pub(crate) fn compare(
    alloc: Global,
    op: CompareOp,
    left: ShapeTraits,
    right: ShapeTraits,
) -> Result<TransferRow, AllocError>
    ensures { IfOk result (λ row. row ≡ compare op left right) }
{
    match op {
        CompareOp::Equal | CompareOp::NotEqual => known_truth(alloc, None),
        CompareOp::Is => known_truth(alloc, is_same(left, right)),
        CompareOp::IsNot => known_truth(alloc, is_same(left, right).map(|same| !same)),
        CompareOp::Within | CompareOp::NotWithin => within(alloc, op, left, right),
        CompareOp::Less | CompareOp::Greater | CompareOp::LessEq | CompareOp::GreaterEq => {
            ordered(alloc, op, left, right)
        }
    }
}

// All orders compare the same pairs.
fn ordered(
    alloc: Global,
    op: CompareOp,
    left: ShapeTraits,
    right: ShapeTraits,
) -> Result<TransferRow, AllocError>
    ensures { IfOk result (λ row. row ≡ ordered op left right) }
{
    if is_unfollowed(left) || is_unfollowed(right) {
        return unfollowed(alloc, is_any(left) || is_any(right));
    }
    let row = Builtins.compare(CompareOp::Less, left.kind, right.kind);
    by_kinds(alloc, Fault::Compare(op), row)
}

// `in` and `not in` look for the same, and give a truth value whatever isn't followed.
fn within(
    alloc: Global,
    op: CompareOp,
    left: ShapeTraits,
    right: ShapeTraits,
) -> Result<TransferRow, AllocError>
    ensures { IfOk result (λ row. row ≡ within op left right) }
{
    if is_unfollowed(left) || is_unfollowed(right) {
        return unchecked(alloc, &[Yield::TrueValue, Yield::FalseValue]);
    }
    if looks_within(left.kind, right.kind) {
        return known_truth(alloc, None);
    }
    Ok(faults(alloc, Fault::Compare(op)))
}

fn looks_within(left: Basic, right: Basic) -> bool
    ensures { result ≡ looks_within left right }
{
    matches!(
        Builtins.compare(CompareOp::Within, left, right),
        OpRow::Kinds(_)
    )
}

// Whether two values are one object, where that is known.
fn is_same(left: ShapeTraits, right: ShapeTraits) -> Option<bool>
    ensures { result ≡ is_same left right }
{
    if is_anything(left) || is_anything(right) {
        return None;
    }
    match Builtins.identity(left.kind, right.kind) {
        Sameness::Same => Some(true),
        Sameness::Different => Some(false),
        Sameness::AsTruths => same_truths(left.truth, right.truth),
        Sameness::Unknown => None,
    }
}

fn same_truths(left: Truth, right: Truth) -> Option<bool>
    ensures { result ≡ same_truths left right }
{
    match (left, right) {
        (Truth::Yes, Truth::Yes) | (Truth::No, Truth::No) => Some(true),
        (Truth::Yes, Truth::No) | (Truth::No, Truth::Yes) => Some(false),
        _ => None,
    }
}

// The truth value, or both where it isn't known.
fn known_truth(alloc: Global, truth: Option<bool>) -> Result<TransferRow, AllocError>
    ensures { IfOk result (λ row. row ≡ gives (known_truth truth)) }
{
    match truth {
        Some(true) => gives(alloc, &[Yield::TrueValue]),
        Some(false) => gives(alloc, &[Yield::FalseValue]),
        None => gives(alloc, &[Yield::TrueValue, Yield::FalseValue]),
    }
}

/// What `not` gives of a truth.
pub(crate) fn inverted(alloc: Global, truth: Truth) -> Result<TransferRow, AllocError>
    ensures { IfOk result (λ row. row ≡ gives (inverted truth)) }
{
    match truth {
        Truth::Yes => gives(alloc, &[Yield::FalseValue]),
        Truth::No => gives(alloc, &[Yield::TrueValue]),
        Truth::Both => gives(alloc, &[Yield::TrueValue, Yield::FalseValue]),
    }
}

// What comes of operands that aren't followed.
fn unfollowed(alloc: Global, is_any: bool) -> Result<TransferRow, AllocError>
    ensures { IfOk result (λ row. row ≡ unfollowed is_any) }
{
    if is_any {
        unchecked(alloc, &[Yield::Any])
    } else {
        unchecked(alloc, &[Yield::Ext])
    }
}

fn unchecked(alloc: Global, results: &[Yield]) -> Result<TransferRow, AllocError>
    ensures { IfOk result (λ row. row ≡ marked true (gives results.now)) }
{
    let row = gives(alloc, results)?;
    Ok(TransferRow {
        unchecked: true,
        ..row
    })
}

// What an answer of the tables gives.
fn by_kinds(alloc: Global, fault: Fault, row: OpRow) -> Result<TransferRow, AllocError>
    ensures { IfOk result (λ answered. answered ≡ by_kinds fault (answer row)) }
{
    match row {
        OpRow::Fault => Ok(faults(alloc, fault)),
        OpRow::Kinds(kinds) => of_kinds(alloc, kinds),
    }
}

#[tactic(auto, using(std::proofs::Common::append_assoc))]
fn of_kinds(alloc: Global, kinds: &[Basic]) -> Result<TransferRow, AllocError>
    ensures { IfOk result (λ row. row ≡ gives (flat_map of_kind kinds.now)) }
{
    let mut results = Items::new(alloc);
    for kind in kinds {
        results.append(of_kind(alloc, *kind)?)?;
    }
    Ok(TransferRow {
        results,
        ..no_row(alloc)
    })
}

// The shapes of a kind without parts.
fn of_kind(alloc: Global, kind: Basic) -> Result<Items<Yield>, AllocError>
    ensures { IfOk result (λ given. given ≡ of_kind kind) }
{
    match kind {
        Basic::NoneKind => Items::from_slice(alloc, &[Yield::NoneValue]),
        Basic::Bool => Items::from_slice(alloc, &[Yield::TrueValue, Yield::FalseValue]),
        Basic::Int => Items::from_slice(alloc, &[Yield::Int]),
        Basic::Float => Items::from_slice(alloc, &[Yield::Float]),
        Basic::Str => Items::from_slice(alloc, &[Yield::Str]),
        Basic::Bytes => Items::from_slice(alloc, &[Yield::Bytes]),
        _ => Ok(Items::new(alloc)),
    }
}

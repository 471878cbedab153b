//! What operators give (language reference, "Binary arithmetic operations", "Shifting operations", "Binary bitwise operations",
//! "The power operator", "Unary arithmetic and bitwise operations", "Comparisons").
ghost use Rattle.std.specs.Prelude.{◌≡◌, map, option_map};
ghost use Rattle.builtin_stubs.specs.Operators.{op_rows, unary_rows, compare_rows, op_kinds, unary_kinds, compare_kinds, answer};

use crate::Basic::{Bool, Bytes, Float, Int, List, Str};
use crate::Operand::{
    Anything, Binary, Fixed, Mapping, Number, Row, Span, Text, Truth, Viewed, Whole,
};
use crate::operand::{first_of, first_of_two};
use crate::{Basic, OpRow, Operand};
use place_ids::{BinOp, CompareOp, UnaryOp};

/// Two operands, and the kinds that come back.
pub(crate) type PairRow = (Operand, Operand, &'static [Basic]);

/// An operand, and the kinds that come back.
pub(crate) type OneRow = (Operand, &'static [Basic]);

pub(crate) const ADDITION: &[PairRow] = &[
    (Whole, Whole, &[Int]),
    (Number, Number, &[Float]),
    (Text, Text, &[Str]),
    (Binary, Binary, &[Bytes]),
    (Row, Row, &[List]),
    (Fixed, Fixed, &[Basic::Tuple]),
];

/// Numbers are whole or floats, and a float makes the result one.
pub(crate) const ARITHMETIC: &[PairRow] = &[(Whole, Whole, &[Int]), (Number, Number, &[Float])];

pub(crate) const MULTIPLICATION: &[PairRow] = &[
    (Whole, Whole, &[Int]),
    (Number, Number, &[Float]),
    (Text, Whole, &[Str]),
    (Whole, Text, &[Str]),
    (Binary, Whole, &[Bytes]),
    (Whole, Binary, &[Bytes]),
    (Row, Whole, &[List]),
    (Whole, Row, &[List]),
    (Fixed, Whole, &[Basic::Tuple]),
    (Whole, Fixed, &[Basic::Tuple]),
];

pub(crate) const DIVISION: &[PairRow] = &[(Number, Number, &[Float])];

pub(crate) const REMAINDER: &[PairRow] = &[
    (Whole, Whole, &[Int]),
    (Number, Number, &[Float]),
    (Text, Anything, &[Str]),
    (Binary, Anything, &[Bytes]),
];

/// A whole number to a negative power is a float.
pub(crate) const POWER: &[PairRow] = &[(Whole, Whole, &[Int, Float]), (Number, Number, &[Float])];

pub(crate) const SHIFTS: &[PairRow] = &[(Whole, Whole, &[Int])];

pub(crate) const BITWISE: &[PairRow] = &[(Truth, Truth, &[Bool]), (Whole, Whole, &[Int])];

fn rows_of(op: BinOp) -> &'static [PairRow]
    ensures { map (λ r. (r.0, r.1, r.2.now)) result.now ≡ op_rows op }
{
    match op {
        BinOp::Add => ADDITION,
        BinOp::Sub | BinOp::FloorDiv => ARITHMETIC,
        BinOp::Mul => MULTIPLICATION,
        BinOp::Div => DIVISION,
        BinOp::Mod => REMAINDER,
        BinOp::MatMul => &[],
        BinOp::Pow => POWER,
        BinOp::ShiftLeft | BinOp::ShiftRight => SHIFTS,
        BinOp::BitAnd | BinOp::BitOr | BinOp::BitXor => BITWISE,
    }
}

/// The signs `+` and `-`.
pub(crate) const SIGNS: &[OneRow] = &[(Whole, &[Int]), (Number, &[Float])];

pub(crate) const INVERSION: &[OneRow] = &[(Whole, &[Int])];

fn signs_of(op: UnaryOp) -> &'static [OneRow]
    ensures { map (λ r. (r.0, r.1.now)) result.now ≡ unary_rows op }
{
    match op {
        UnaryOp::Plus | UnaryOp::Minus => SIGNS,
        UnaryOp::Invert => INVERSION,
    }
}

pub(crate) const ORDER: &[PairRow] = &[
    (Number, Number, &[Bool]),
    (Text, Text, &[Bool]),
    (Binary, Binary, &[Bool]),
    (Row, Row, &[Bool]),
    (Fixed, Fixed, &[Bool]),
];

/// Of `==` and `is`.
pub(crate) const EQUALITY: &[PairRow] = &[(Anything, Anything, &[Bool])];

/// Of `in`: what is looked for, and what it is looked for in.
pub(crate) const MEMBERSHIP: &[PairRow] = &[
    (Anything, Row, &[Bool]),
    (Anything, Mapping, &[Bool]),
    (Anything, Fixed, &[Bool]),
    (Anything, Viewed, &[Bool]),
    (Anything, Span, &[Bool]),
    (Text, Text, &[Bool]),
    (Binary, Binary, &[Bool]),
    (Whole, Binary, &[Bool]),
];

fn comparisons_of(op: CompareOp) -> &'static [PairRow]
    ensures { map (λ r. (r.0, r.1, r.2.now)) result.now ≡ compare_rows op }
{
    match op {
        CompareOp::Less | CompareOp::Greater | CompareOp::LessEq | CompareOp::GreaterEq => ORDER,
        CompareOp::Equal | CompareOp::NotEqual | CompareOp::Is | CompareOp::IsNot => EQUALITY,
        CompareOp::Within | CompareOp::NotWithin => MEMBERSHIP,
    }
}

fn answer_of(kinds: Option<&'static [Basic]>) -> OpRow
    ensures { answer result ≡ option_map (λ ks. ks.now) kinds.entry }
{
    match kinds {
        Some(kinds) => OpRow::Kinds(kinds),
        None => OpRow::Fault,
    }
}

/// What an operator of two operands gives.
pub(crate) fn operate(op: BinOp, left: Basic, right: Basic) -> OpRow
    ensures { answer result ≡ op_kinds op left right }
{
    answer_of(first_of_two(rows_of(op), left, right))
}

/// What an operator of one operand gives.
pub(crate) fn operate_on_one(op: UnaryOp, kind: Basic) -> OpRow
    ensures { answer result ≡ unary_kinds op kind }
{
    answer_of(first_of(signs_of(op), kind))
}

/// What a comparison gives.
pub(crate) fn compare(op: CompareOp, left: Basic, right: Basic) -> OpRow
    ensures { answer result ≡ compare_kinds op left right }
{
    answer_of(first_of_two(comparisons_of(op), left, right))
}

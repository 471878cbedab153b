//! Which operators the operator tokens are ("Expressions").
ghost use Rattle.std.specs.Prelude.{◌≡◌};
ghost use Rattle.py_descent.specs.Takings.{unary_of, binary_of, compare_of, augment_of};

use place_ids::{BinOp, CompareOp, UnaryOp};
use py_tokens::Op;

/// The operator before its one operand.
pub(crate) fn unary_operator(op: Op) -> Option<UnaryOp>
    ensures { result ≡ unary_of op }
{
    match op {
        Op::Plus => Some(UnaryOp::Plus),
        Op::Minus => Some(UnaryOp::Minus),
        Op::Tilde => Some(UnaryOp::Invert),
        _ => None,
    }
}

/// How tight an operator token binds two operands, from 0, and which operator it is. All of these group from the left.
pub(crate) fn binary_operator(op: Op) -> Option<(u32, BinOp)>
    ensures level { result ≡ binary_of op }
{
    match op {
        Op::Bar => Some((0, BinOp::BitOr)),
        Op::Caret => Some((1, BinOp::BitXor)),
        Op::Amper => Some((2, BinOp::BitAnd)),
        Op::ShiftLeft => Some((3, BinOp::ShiftLeft)),
        Op::ShiftRight => Some((3, BinOp::ShiftRight)),
        Op::Plus => Some((4, BinOp::Add)),
        Op::Minus => Some((4, BinOp::Sub)),
        Op::Star => Some((5, BinOp::Mul)),
        Op::Slash => Some((5, BinOp::Div)),
        Op::DoubleSlash => Some((5, BinOp::FloorDiv)),
        Op::Percent => Some((5, BinOp::Mod)),
        Op::At => Some((5, BinOp::MatMul)),
        _ => None,
    }
}

/// The comparison of one operator token.
pub(crate) fn compare_operator(op: Op) -> Option<CompareOp>
    ensures { result ≡ compare_of op }
{
    match op {
        Op::Less => Some(CompareOp::Less),
        Op::Greater => Some(CompareOp::Greater),
        Op::LessEq => Some(CompareOp::LessEq),
        Op::GreaterEq => Some(CompareOp::GreaterEq),
        Op::EqEq => Some(CompareOp::Equal),
        Op::NotEq => Some(CompareOp::NotEqual),
        _ => None,
    }
}

/// The operator of an augmented assignment.
pub(crate) fn augment_operator(op: Op) -> Option<BinOp>
    ensures { result ≡ augment_of op }
{
    match op {
        Op::PlusAssign => Some(BinOp::Add),
        Op::MinusAssign => Some(BinOp::Sub),
        Op::StarAssign => Some(BinOp::Mul),
        Op::SlashAssign => Some(BinOp::Div),
        Op::DoubleSlashAssign => Some(BinOp::FloorDiv),
        Op::PercentAssign => Some(BinOp::Mod),
        Op::AtAssign => Some(BinOp::MatMul),
        Op::AmperAssign => Some(BinOp::BitAnd),
        Op::BarAssign => Some(BinOp::BitOr),
        Op::CaretAssign => Some(BinOp::BitXor),
        Op::ShiftRightAssign => Some(BinOp::ShiftRight),
        Op::ShiftLeftAssign => Some(BinOp::ShiftLeft),
        Op::DoubleStarAssign => Some(BinOp::Pow),
        _ => None,
    }
}

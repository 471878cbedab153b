//! The signs of operators, as a report writes them.
ghost use Rattle.std.specs.Prelude.{◌≡◌};
ghost use Rattle.world_rules.specs.Texts.{unary_sign, sign, compare_sign};

use place_ids::{BinOp, CompareOp, UnaryOp};

pub(crate) fn unary_sign(op: UnaryOp) -> &'static [u8]
    ensures { result.now ≡ unary_sign op }
{
    match op {
        UnaryOp::Plus => b"+",
        UnaryOp::Minus => b"-",
        UnaryOp::Invert => b"~",
    }
}

pub(crate) fn sign(op: BinOp) -> &'static [u8]
    ensures { result.now ≡ sign op }
{
    match op {
        BinOp::Add => b"+",
        BinOp::Sub => b"-",
        BinOp::Mul => b"*",
        BinOp::Div => b"/",
        BinOp::FloorDiv => b"//",
        BinOp::Mod => b"%",
        BinOp::MatMul => b"@",
        BinOp::Pow => b"**",
        BinOp::ShiftLeft => b"<<",
        BinOp::ShiftRight => b">>",
        BinOp::BitAnd => b"&",
        BinOp::BitOr => b"|",
        BinOp::BitXor => b"^",
    }
}

pub(crate) fn compare_sign(op: CompareOp) -> &'static [u8]
    ensures { result.now ≡ compare_sign op }
{
    match op {
        CompareOp::Less => b"<",
        CompareOp::Greater => b">",
        CompareOp::LessEq => b"<=",
        CompareOp::GreaterEq => b">=",
        CompareOp::Equal => b"==",
        CompareOp::NotEqual => b"!=",
        CompareOp::Is => b"is",
        CompareOp::IsNot => b"is not",
        CompareOp::Within => b"in",
        CompareOp::NotWithin => b"not in",
    }
}

//! The operator or delimiter that a text begins with.
ghost use Rattle.std.specs.Prelude.{◌≡◌, ◌<◌, ◌≤◌, nat_eq, length, map, IfSome};
ghost use Rattle.std.specs.List.{starts_with};
ghost use Rattle.py_tokens.specs.Operators.{row_operator, operator_of};
ghost use Rattle.py_tokens.specs.Rows.{first_said};

use crate::token::Op;

// Each operator and how it is spelled. No longer one stands after a shorter, so the first that fits is the longest.
const OPERATOR_ROWS: [(&str, Op); 47] = [
    ("...", Op::Ellipsis),
    ("//=", Op::DoubleSlashAssign),
    (">>=", Op::ShiftRightAssign),
    ("<<=", Op::ShiftLeftAssign),
    ("**=", Op::DoubleStarAssign),
    ("**", Op::DoubleStar),
    ("//", Op::DoubleSlash),
    ("<<", Op::ShiftLeft),
    (">>", Op::ShiftRight),
    ("<=", Op::LessEq),
    (">=", Op::GreaterEq),
    ("==", Op::EqEq),
    ("!=", Op::NotEq),
    ("->", Op::Arrow),
    (":=", Op::Walrus),
    ("+=", Op::PlusAssign),
    ("-=", Op::MinusAssign),
    ("*=", Op::StarAssign),
    ("/=", Op::SlashAssign),
    ("%=", Op::PercentAssign),
    ("@=", Op::AtAssign),
    ("&=", Op::AmperAssign),
    ("|=", Op::BarAssign),
    ("^=", Op::CaretAssign),
    ("+", Op::Plus),
    ("-", Op::Minus),
    ("*", Op::Star),
    ("/", Op::Slash),
    ("%", Op::Percent),
    ("@", Op::At),
    ("&", Op::Amper),
    ("|", Op::Bar),
    ("^", Op::Caret),
    ("~", Op::Tilde),
    ("<", Op::Less),
    (">", Op::Greater),
    ("(", Op::LeftParen),
    (")", Op::RightParen),
    ("[", Op::LeftSquare),
    ("]", Op::RightSquare),
    ("{", Op::LeftBrace),
    ("}", Op::RightBrace),
    (",", Op::Comma),
    (":", Op::Colon),
    (".", Op::Dot),
    (";", Op::Semi),
    ("=", Op::Assign),
];

/// An operator or delimiter, and how many bytes it has.
#[derive(Clone, Copy, Debug, PartialEq, Eq)]
pub(crate) struct FoundOp {
    pub(crate) op: Op,
    pub(crate) len: usize,
}

fn find_operator(bytes: &[u8], rows: &[(&str, Op)]) -> Option<FoundOp>
    ensures { result ≡ first_said (starts_with nat_eq bytes.now) row_operator (map (λ row. (row.0.now, row.1)) rows.now) }
{
    let (spelling, op) = rows.iter().find(|row| bytes.starts_with(row.0.as_bytes()))?;
    Some(FoundOp {
        op: *op,
        len: spelling.len(),
    })
}

/// The longest operator or delimiter that a text begins with.
pub(crate) fn operator(bytes: &[u8]) -> Option<FoundOp>
    ensures exact { result ≡ operator_of bytes.now }
    ensures within { IfSome result (λ f. (0 < f.len) × (f.len ≤ length bytes.now)) }
{
    find_operator(bytes, &OPERATOR_ROWS)
}

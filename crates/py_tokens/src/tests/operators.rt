//! Which operator a text begins with, from the rules of Python's lexical analysis.
use crate::operator::{FoundOp, operator};
use crate::token::Op;

#[test]
fn operators_are_known_by_their_spelling(rt: HostRuntime) {
    let operators = [
        ("+", Op::Plus),
        ("-", Op::Minus),
        ("*", Op::Star),
        ("**", Op::DoubleStar),
        ("/", Op::Slash),
        ("//", Op::DoubleSlash),
        ("%", Op::Percent),
        ("@", Op::At),
        ("<<", Op::ShiftLeft),
        (">>", Op::ShiftRight),
        ("&", Op::Amper),
        ("|", Op::Bar),
        ("^", Op::Caret),
        ("~", Op::Tilde),
        ("<", Op::Less),
        (">", Op::Greater),
        ("<=", Op::LessEq),
        (">=", Op::GreaterEq),
        ("==", Op::EqEq),
        ("!=", Op::NotEq),
        ("(", Op::LeftParen),
        (")", Op::RightParen),
        ("[", Op::LeftSquare),
        ("]", Op::RightSquare),
        ("{", Op::LeftBrace),
        ("}", Op::RightBrace),
        (",", Op::Comma),
        (":", Op::Colon),
        (".", Op::Dot),
        (";", Op::Semi),
        ("=", Op::Assign),
        ("->", Op::Arrow),
        (":=", Op::Walrus),
        ("...", Op::Ellipsis),
        ("+=", Op::PlusAssign),
        ("-=", Op::MinusAssign),
        ("*=", Op::StarAssign),
        ("/=", Op::SlashAssign),
        ("//=", Op::DoubleSlashAssign),
        ("%=", Op::PercentAssign),
        ("@=", Op::AtAssign),
        ("&=", Op::AmperAssign),
        ("|=", Op::BarAssign),
        ("^=", Op::CaretAssign),
        (">>=", Op::ShiftRightAssign),
        ("<<=", Op::ShiftLeftAssign),
        ("**=", Op::DoubleStarAssign),
    ];
    for (text, op) in operators {
        let len = text.len();
        assert_eq!(rt;
            operator(text.as_bytes()),
            Some(FoundOp { op, len }),
            "at {text}"
        );
    }
}

#[test]
fn the_longest_operator_is_found(rt: HostRuntime) {
    let texts = [
        ("**=x", Op::DoubleStarAssign, 3),
        ("**x", Op::DoubleStar, 2),
        ("*x", Op::Star, 1),
        (">>==", Op::ShiftRightAssign, 3),
        (">>>", Op::ShiftRight, 2),
        ("//=", Op::DoubleSlashAssign, 3),
        ("....", Op::Ellipsis, 3),
        ("..", Op::Dot, 1),
        ("!==", Op::NotEq, 2),
        ("===", Op::EqEq, 2),
        ("->>", Op::Arrow, 2),
        ("-1", Op::Minus, 1),
        (":==", Op::Walrus, 2),
        ("<>", Op::Less, 1),
        ("<=>", Op::LessEq, 2),
    ];
    for (text, op, len) in texts {
        assert_eq!(rt;
            operator(text.as_bytes()),
            Some(FoundOp { op, len }),
            "at {text}"
        );
    }
    for text in ["", "!", "! =", "$", "?", "a+", " =", "é"] {
        assert_eq!(rt; operator(text.as_bytes()), None, "at {text}");
    }
}

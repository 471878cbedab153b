//! Where literals end, and which lines a text has, from the rules of Python's string literals.
use crate::line::line_ends;
use crate::literal::{Literal, Prefix, first_literal};

const TEXT: Prefix = Prefix {
    raw: false,
    bytes: false,
};

const RAW: Prefix = Prefix {
    raw: true,
    bytes: false,
};

const BYTES: Prefix = Prefix {
    raw: false,
    bytes: true,
};

const RAW_BYTES: Prefix = Prefix {
    raw: true,
    bytes: true,
};

// How a literal ends.
#[derive(Clone, Copy)]
enum End {
    Full,
    Empty,
    Open,
    Bad,
}

fn literal(end: End, at: usize) -> Literal {
    match end {
        End::Full => Literal::Closed {
            len: at,
            empty: false,
        },
        End::Empty => Literal::Closed {
            len: at,
            empty: true,
        },
        End::Open => Literal::Open { len: at },
        End::Bad => Literal::Bad { at },
    }
}

// Each text here begins with a quote.
fn read(text: &str, prefix: Prefix) -> Option<Literal> {
    match text.as_bytes() {
        bytes @ [b'"' | b'\'', ..] => Some(first_literal(bytes, prefix)),
        _ => None,
    }
}

#[test]
fn literals_end_where_python_ends_them(rt: HostRuntime) {
    let literals = [
        ("\"\"", TEXT, End::Empty, 2),
        ("''", TEXT, End::Empty, 2),
        ("'' ''", TEXT, End::Empty, 2),
        ("\"a\"", TEXT, End::Full, 3),
        ("'a'", TEXT, End::Full, 3),
        ("\"\"\"\"\"\"", TEXT, End::Empty, 6),
        ("''''''", TEXT, End::Empty, 6),
        ("\"\"\"a\"b\"\"\"", TEXT, End::Full, 9),
        ("\"\"\"a\nb\"\"\"", TEXT, End::Full, 9),
        ("\"a", TEXT, End::Open, 2),
        ("\"a\nb\"", TEXT, End::Open, 2),
        ("\"a\r\nb\"", TEXT, End::Open, 2),
        ("\"\\", TEXT, End::Open, 2),
        ("\"\\\"", TEXT, End::Open, 3),
        ("\"\\\"", RAW, End::Open, 3),
        ("\"\\\"\"", TEXT, End::Full, 4),
        ("\"\\\"\"", RAW, End::Full, 4),
        ("\"\\\\\"", TEXT, End::Full, 4),
        ("\"\"\"", TEXT, End::Open, 3),
        ("\"\"\"\"", TEXT, End::Open, 4),
        ("\"\"\"a\n", TEXT, End::Open, 5),
        ("\"\\\n\"", TEXT, End::Empty, 4),
        ("\"\\\r\"", TEXT, End::Empty, 4),
        ("\"\\\r\n\"", TEXT, End::Empty, 5),
        ("\"\\\n\"", RAW, End::Full, 4),
        ("\"\\\r\n\"", RAW, End::Full, 5),
        ("\"\"", RAW, End::Empty, 2),
        ("\"\\\na\"", TEXT, End::Full, 5),
        ("\"\\\n\r\"", TEXT, End::Open, 3),
        ("\"é\"", BYTES, End::Bad, 1),
        ("\"\\é\"", BYTES, End::Bad, 2),
        ("\"\\é\"", RAW_BYTES, End::Bad, 2),
        ("\"a\"é", BYTES, End::Full, 3),
        ("\"é\"", TEXT, End::Full, 4),
        ("\"\\é\"", TEXT, End::Full, 5),
        ("\"a\né\"", BYTES, End::Open, 2),
        ("\"é\n", BYTES, End::Bad, 1),
        ("\"a\"b\"", TEXT, End::Full, 3),
        ("'a\"'", TEXT, End::Full, 4),
        ("\"\"\"\\\"\"\"", TEXT, End::Open, 7),
        ("\"\"\"\\\"\"\"\"", TEXT, End::Full, 8),
        ("\"\"\"\\\n\"\"\"", TEXT, End::Empty, 8),
        ("'''\"\"\"'''", TEXT, End::Full, 9),
    ];
    for (text, prefix, end, at) in literals {
        assert_eq!(rt; read(text, prefix), Some(literal(end, at)), "at {text}");
    }
}

#[test]
fn line_ends_are_counted(rt: HostRuntime) {
    let counts = [
        ("", 0),
        ("a", 0),
        ("\n", 1),
        ("\r", 1),
        ("\r\n", 1),
        ("\n\r", 2),
        ("\r\r", 2),
        ("\r\r\n", 2),
        ("\r\n\n", 2),
        ("a\nb\r\nc\rd", 3),
    ];
    for (text, count) in counts {
        assert_eq!(rt; line_ends(text.as_bytes()), count, "at {text}");
    }
}

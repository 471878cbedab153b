//! Which numeric literal a text begins with, from the rules of the language reference.
ghost use Rattle.std.specs.Prelude.{◌≡◌};
ghost use Rattle.py_tokens.specs.Numerals.{starts_numeral};

use crate::numeral::Numeral::{Bad, Float, Imaginary, Int, Wide};
use crate::numeral::{FoundNumeral, first_numeral};

fn starts_numeral(text: &str) -> bool
    ensures { result ≡ starts_numeral text.now }
{
    match text.as_bytes() {
        [b'.', next, ..] => next.is_ascii_digit(),
        [first, ..] => first.is_ascii_digit(),
        [] => false,
    }
}

// The numeral at the front, where there is one.
fn read(text: &str) -> Option<FoundNumeral> {
    if starts_numeral(text) {
        Some(first_numeral(text))
    } else {
        None
    }
}

#[test]
fn numerals_are_read(rt: HostRuntime) {
    let largest = 340282366920938463463374607431768211455;
    let cases = [
        // Integers.
        ("0", Int(0), 1),
        ("00", Int(0), 2),
        ("0_0", Int(0), 3),
        ("7", Int(7), 1),
        ("42", Int(42), 2),
        ("1_000", Int(1000), 5),
        ("1_2_3", Int(123), 5),
        ("0x1f", Int(31), 4),
        ("0x_f", Int(15), 4),
        ("0X_Ff", Int(255), 5),
        ("0xdead_BEEF", Int(3735928559), 11),
        ("0xe+1", Int(14), 3),
        ("0o17", Int(15), 4),
        ("0O17", Int(15), 4),
        ("0o_1_7", Int(15), 6),
        ("0b101", Int(5), 5),
        ("0B1", Int(1), 3),
        ("0b_1_0", Int(2), 6),
        ("0b1 ", Int(1), 3),
        ("0x1.5", Int(1), 3),
        ("1+2", Int(1), 1),
        ("1 ", Int(1), 1),
        ("12\n", Int(12), 2),
        ("1²", Int(1), 1),
        // Integers by their size.
        ("340282366920938463463374607431768211455", Int(largest), 39),
        ("340282366920938463463374607431768211456", Wide, 39),
        ("340282366920938463463374607431768211456a", Bad, 39),
        ("3402823669209384634633746074317682114550", Wide, 40),
        ("0xffffffffffffffffffffffffffffffff", Int(largest), 34),
        ("0x100000000000000000000000000000000", Wide, 35),
        ("0x0000_0000_0000_0000_0000_0000_0000_0000_0001", Int(1), 46),
        ("0x0ffffffffffffffffffffffffffffffff", Int(largest), 35),
        // Floats.
        ("1.", Float, 2),
        (".5", Float, 2),
        ("1.5", Float, 3),
        ("1e3", Float, 3),
        ("1.e5", Float, 4),
        ("1E-3", Float, 4),
        ("1e+3", Float, 4),
        (".5e1", Float, 4),
        ("1_0.0_1e+1_0", Float, 12),
        ("0777.5", Float, 6),
        ("0_7.5", Float, 5),
        ("07e1", Float, 4),
        ("0.", Float, 2),
        ("1.5.5", Float, 3),
        ("1..x", Float, 2),
        ("1.+2", Float, 2),
        ("1.5)", Float, 3),
        // Imaginary numbers.
        ("1j", Imaginary, 2),
        ("1J", Imaginary, 2),
        ("07j", Imaginary, 3),
        ("0_7j", Imaginary, 4),
        ("1.j", Imaginary, 3),
        (".5j", Imaginary, 3),
        ("1e3j", Imaginary, 4),
        ("1j+2", Imaginary, 2),
        // What a name may go on with stands directly after these.
        ("1e", Bad, 1),
        ("1e+", Bad, 1),
        ("1__0", Bad, 1),
        ("07", Bad, 1),
        ("0_7", Bad, 1),
        ("00_7", Bad, 2),
        ("0x", Bad, 1),
        ("0xg", Bad, 1),
        ("0x_", Bad, 1),
        ("0x__1", Bad, 1),
        ("0o8", Bad, 1),
        ("0b2", Bad, 1),
        ("0b12", Bad, 3),
        ("0x1_", Bad, 3),
        ("1_", Bad, 1),
        ("1_000_", Bad, 5),
        ("1jx", Bad, 2),
        ("0b1j", Bad, 3),
        ("1.e", Bad, 2),
        ("1._5", Bad, 2),
        ("1.5_", Bad, 3),
        ("1e1_", Bad, 3),
        ("1if", Bad, 1),
        ("1é", Bad, 1),
        ("1.é", Bad, 2),
    ];
    for (text, numeral, len) in cases {
        assert_eq!(rt;
            read(text),
            Some(FoundNumeral { numeral, len }),
            "at {text}"
        );
    }
}

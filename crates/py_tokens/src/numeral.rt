//! The numeric literal that a text begins with.
ghost use Rattle.std.specs.Prelude.{◌≡◌, ◌+◌, ◌*◌, ◌<◌, ◌≤◌, true, length, take};
ghost use Rattle.std.specs.Char.{digit_value, is_digit};
ghost use Rattle.std.specs.Str.{IsAscii, chars};
ghost use Rattle.unicode_ident.specs.Ident.{is_xid_continue};
ghost use Rattle.py_tokens.specs.Numerals.{begins, goes_on, more_len, digits_len, base_of, exponent_len, fraction_len, float_len, fitting, number_of, integer_of, based_of, whole_of, decimal_of, longest_of, starts_numeral, numeral_of};

use unicode_ident::is_xid_continue;

/// What the numeric literal at the front of a text is ("Numeric literals").
#[derive(Clone, Copy, Debug, PartialEq, Eq)]
pub(crate) enum Numeral {
    Int(u128),
    /// An integer from 2^128 on.
    Wide,
    Float,
    Imaginary,
    /// A character that a name may go on with stands directly after the literal.
    Bad,
}

/// A numeric literal, and how many bytes it has.
#[derive(Clone, Copy, Debug, PartialEq, Eq)]
pub(crate) struct FoundNumeral {
    pub(crate) numeral: Numeral,
    pub(crate) len: usize,
}

// The value of a digit or a letter, and 36 for any other byte.
fn digit_value(byte: u8) -> u8
    ensures { result ≡ digit_value byte }
{
    match byte {
        b'0'..=b'9' => byte - b'0',
        b'A'..=b'Z' => byte - b'A' + 10,
        b'a'..=b'z' => byte - b'a' + 10,
        _ => 36,
    }
}

fn begins_with_digit(radix: u8, bytes: &[u8]) -> bool
    ensures { result ≡ begins (λ b. is_digit b radix) bytes.now }
{
    match bytes {
        [first, ..] => digit_value(*first) < radix,
        [] => false,
    }
}

fn goes_on(radix: u8, bytes: &[u8]) -> bool
    ensures { result ≡ goes_on radix bytes.now }
{
    match bytes {
        [first, ..] if digit_value(*first) < radix => true,
        [b'_', rest @ ..] => begins_with_digit(radix, rest),
        _ => false,
    }
}

// The length of the longest front that goes on with digits.
fn more_len(radix: u8, bytes: &[u8]) -> usize
    ensures exact { result ≡ more_len radix bytes.now }
    ensures within { result ≤ length bytes.now }
{
    for len in 0..bytes.len() {
        if !goes_on(radix, &bytes[len..]) {
            return len;
        }
    }
    bytes.len()
}

// The length of the longest front that is digits.
fn digits_len(radix: u8, bytes: &[u8]) -> usize
    ensures exact { result ≡ digits_len radix bytes.now }
    ensures within { result ≤ length bytes.now }
{
    if begins_with_digit(radix, bytes) {
        more_len(radix, bytes)
    } else {
        0
    }
}

// The base that `0` and a letter at the front stand for.
fn base(bytes: &[u8]) -> u8
    ensures { result ≡ base_of bytes.now }
{
    match bytes {
        [b'0', b'x' | b'X', ..] => 16,
        [b'0', b'o' | b'O', ..] => 8,
        [b'0', b'b' | b'B', ..] => 2,
        _ => 10,
    }
}

// The length of the fraction at the front.
fn fraction_len(bytes: &[u8]) -> usize
    ensures exact { result ≡ fraction_len bytes.now }
    ensures within { result ≤ length bytes.now }
{
    match bytes {
        [b'.', rest @ ..] => 1 + digits_len(10, rest),
        _ => 0,
    }
}

// The length of the exponent at the front.
fn exponent_len(bytes: &[u8]) -> usize
    ensures exact { result ≡ exponent_len bytes.now }
    ensures within { result ≤ length bytes.now }
{
    let mark = match bytes {
        [b'e' | b'E', b'+' | b'-', ..] => 2,
        [b'e' | b'E', ..] => 1,
        _ => return 0,
    };
    let digits = digits_len(10, &bytes[mark..]);
    if digits == 0 { 0 } else { mark + digits }
}

// The length of the digits at the front with their fraction and exponent.
fn float_len(bytes: &[u8]) -> usize
    ensures exact { result ≡ float_len bytes.now }
    ensures within { result ≤ length bytes.now }
{
    let whole = digits_len(10, bytes);
    let point = whole + fraction_len(&bytes[whole..]);
    point + exponent_len(&bytes[point..])
}

// The number with one more digit, where it is below 2^128.
fn with_digit(radix: u8, number: u128, byte: u8) -> Option<u128>
    ensures { result ≡ fitting (number * radix + digit_value byte) }
{
    let digit = digit_value(byte);
    number
        .checked_mul(radix as u128)?
        .checked_add(digit as u128)
}

// The number that digits write, where it is below 2^128.
fn number(radix: u8, digits: &[u8]) -> Option<u128>
    ensures { result ≡ number_of radix digits.now }
{
    let mut number = 0;
    for byte in digits {
        if *byte != b'_' {
            number = with_digit(radix, number, *byte)?;
        }
    }
    Some(number)
}

// The integer that digits write.
fn integer(radix: u8, digits: &[u8]) -> Numeral
    ensures { result ≡ integer_of radix digits.now }
{
    match number(radix, digits) {
        Some(value) => Numeral::Int(value),
        None => Numeral::Wide,
    }
}

// The integer at the front that `0` and a letter begin.
fn based(bytes: &[u8]) -> Option<FoundNumeral>
    ensures { result ≡ based_of bytes.now }
{
    let radix = base(bytes);
    if radix == 10 {
        return None;
    }
    let digits = &bytes[2..];
    let len = more_len(radix, digits);
    if len == 0 {
        return None;
    }
    Some(FoundNumeral {
        numeral: integer(radix, &digits[..len]),
        len: 2 + len,
    })
}

// The decimal integer at the front: zeros are the digits of base 1.
fn whole(bytes: &[u8]) -> FoundNumeral
    ensures { result ≡ whole_of bytes.now }
{
    let zeros = digits_len(1, bytes);
    let len = if zeros == 0 {
        digits_len(10, bytes)
    } else {
        zeros
    };
    FoundNumeral {
        numeral: integer(10, &bytes[..len]),
        len,
    }
}

// The decimal literal at the front.
fn decimal(bytes: &[u8]) -> FoundNumeral
    ensures { result ≡ decimal_of bytes.now }
{
    let len = float_len(bytes);
    match &bytes[len..] {
        [b'j' | b'J', ..] => FoundNumeral {
            numeral: Numeral::Imaginary,
            len: len + 1,
        },
        _ if digits_len(10, bytes) == len => whole(bytes),
        _ => FoundNumeral {
            numeral: Numeral::Float,
            len,
        },
    }
}

// The longest numeric literal at the front.
fn longest(bytes: &[u8]) -> FoundNumeral
    ensures { result ≡ longest_of bytes.now }
{
    match based(bytes) {
        Some(found) => found,
        None => decimal(bytes),
    }
}

// Whether a name may go on with the text's first character.
fn continues_a_name(text: &str) -> bool
    ensures { result ≡ begins is_xid_continue (chars text.now) }
{
    match text.chars().next() {
        Some(first) => is_xid_continue(first),
        None => false,
    }
}

/// The numeric literal at the front of a text that begins with a digit, or with a point and a digit.
pub(crate) fn first_numeral(text: &str) -> FoundNumeral
    requires { starts_numeral text.now ≡ true }
    ensures exact { result ≡ numeral_of text.now }
    ensures within { (0 < result.len) × (result.len ≤ length text.now) }
    ensures ascii { IsAscii (take result.len text.now) }
{
    let found = longest(text.as_bytes());
    if continues_a_name(&text[found.len..]) {
        FoundNumeral {
            numeral: Numeral::Bad,
            len: found.len,
        }
    } else {
        found
    }
}

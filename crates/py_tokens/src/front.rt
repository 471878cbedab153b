//! What stands at the front of a text.
ghost use Rattle.std.specs.Prelude.{◌≡◌, ◌+◌, ◌<◌, ◌≤◌, ℕ, Bool, true, length, take, drop, IfOk};
ghost use Rattle.std.specs.Str.{IsCharBoundary};
ghost use Rattle.py_tokens.specs.Fronts.{begins_with_quote, char_len, join_len, joined_len, line_end_len, literal_front, named_front, numeral_front, operator_front, prefixed_front, separator_len, token_front, word_front, front_of, Fits};
ghost use Rattle.py_tokens.specs.Numerals.{starts_numeral};
ghost use Rattle.py_tokens.specs.Operators.{operator_of};

use crate::literal::{Literal, Prefix, first_literal};
use crate::numeral::{FoundNumeral, Numeral, first_numeral};
use crate::operator::operator;
use crate::runs::{run_of_space, run_to_line_end};
use crate::token::TokenKind;
use crate::word::{begins_word, is_normal, keyword, prefix, word_len};
use std::alloc::{AllocError, Global};

/// What is wrong at the front of a text.
#[derive(Clone, Copy)]
pub(crate) enum Flaw {
    BadCharacter,
    OpenString,
    BadNumber,
    WideInt,
    NotNfkc,
    Prefix,
}

/// What stands at the front of a text, and how many bytes it has.
#[derive(Clone, Copy)]
pub(crate) enum Front {
    /// Space, a comment, or a backslash with the line end that it takes away.
    Separator(usize),
    LineEnd(usize),
    Name(usize),
    /// Any other token within a line.
    Token(TokenKind, usize),
    /// A flaw of so many bytes, the second number, from the first on.
    Flawed(Flaw, usize, usize),
}

// A prefix that says nothing.
const NO_PREFIX: Prefix = Prefix {
    raw: false,
    bytes: false,
};

/// How many bytes the line end at the front has: a line feed, a carriage return, or both in this order.
pub(crate) fn line_end_len(bytes: &[u8]) -> usize
    ensures exact { result ≡ line_end_len bytes.now }
    ensures within { result ≤ length bytes.now }
{
    match bytes {
        [b'\r', b'\n', ..] => 2,
        [b'\n' | b'\r', ..] => 1,
        _ => 0,
    }
}

// How many bytes the join has whose backslash stands before these bytes.
fn joined_len(after: &[u8]) -> usize
    ensures exact { result ≡ joined_len after.now }
    ensures within { result ≤ 1 + length after.now }
{
    match line_end_len(after) {
        0 => 0,
        len => 1 + len,
    }
}

// How many bytes the join at the front has.
fn join_len(bytes: &[u8]) -> usize
    ensures exact { result ≡ join_len bytes.now }
    ensures within { result ≤ length bytes.now }
{
    match bytes {
        [b'\\', after @ ..] => joined_len(after),
        _ => 0,
    }
}

// How many bytes the comment, the join or the space at the front has.
fn separator_len(text: &str) -> usize
    ensures exact { result ≡ separator_len text.now }
    ensures cut { IsCharBoundary text.now result }
{
    let bytes = text.as_bytes();
    match bytes {
        [b'#', ..] => run_to_line_end(bytes),
        [b'\\', ..] => join_len(bytes),
        _ => run_of_space(bytes),
    }
}

// How many bytes the first character has.
fn char_len(text: &str) -> usize
    requires { 0 < length text.now }
    ensures exact { result ≡ char_len text.now }
    ensures within { result ≤ length text.now }
{
    match text.chars().next() {
        Some(first) => first.len_utf8(),
        None => unreachable!(),
    }
}

fn begins_with_quote(bytes: &[u8]) -> bool
    ensures { result ≡ begins_with_quote bytes.now }
{
    matches!(bytes, [b'"' | b'\'', ..])
}

// The literal that follows a prefix of these many bytes.
fn literal(text: &str, len: usize, prefix: Prefix) -> Front
    requires cut { IsCharBoundary text.now len }
    requires quoted { begins_with_quote (drop len text.now) ≡ true }
    ensures exact { result ≡ literal_front prefix len text.now }
    ensures fits { Fits text.now result }
{
    match first_literal(&text.as_bytes()[len..], prefix) {
        Literal::Closed { len: more, empty } if prefix.bytes => {
            Front::Token(TokenKind::Bytes(empty), len + more)
        }
        Literal::Closed { len: more, empty } => Front::Token(TokenKind::Str(empty), len + more),
        Literal::Open { len: more } => Front::Flawed(Flaw::OpenString, 0, len + more),
        Literal::Bad { at } => {
            let from = len + at;
            Front::Flawed(Flaw::BadCharacter, from, char_len(&text[from..]))
        }
    }
}

// The name or the literal with a prefix that begins with a word of these many bytes, which is no keyword.
fn prefixed(text: &str, len: usize) -> Front
    requires some { 0 < len }
    requires cut { IsCharBoundary text.now len }
    ensures exact { result ≡ named_front text.now len None }
    ensures fits { Fits text.now result }
{
    if !begins_with_quote(&text.as_bytes()[len..]) {
        return Front::Name(len);
    }
    match prefix(&text.as_bytes()[..len]) {
        Some(prefix) => literal(text, len, prefix),
        None => Front::Flawed(Flaw::Prefix, 0, len),
    }
}

// What a word of these many bytes is, or begins.
fn word(alloc: Global, text: &str, len: usize) -> Result<Front, AllocError>
    requires some { 0 < len }
    requires cut { IsCharBoundary text.now len }
    ensures exact { IfOk result (λ front. front ≡ word_front text.now len) }
    ensures fits { IfOk result (Fits text.now) }
{
    let word = &text[..len];
    if !is_normal(alloc, word)? {
        return Ok(Front::Flawed(Flaw::NotNfkc, 0, len));
    }
    Ok(match keyword(word) {
        Some(keyword) => Front::Token(TokenKind::Keyword(keyword), len),
        None => prefixed(text, len),
    })
}

fn starts_numeral(bytes: &[u8]) -> bool
    ensures { result ≡ starts_numeral bytes.now }
{
    match bytes {
        [b'.', second, ..] => second.is_ascii_digit(),
        [first, ..] => first.is_ascii_digit(),
        [] => false,
    }
}

fn numeral(found: FoundNumeral) -> Front
    ensures { result ≡ numeral_front found.numeral found.len }
{
    match found.numeral {
        Numeral::Int(value) => Front::Token(TokenKind::Int(value), found.len),
        Numeral::Float => Front::Token(TokenKind::Float, found.len),
        Numeral::Imaginary => Front::Token(TokenKind::Imaginary, found.len),
        Numeral::Wide => Front::Flawed(Flaw::WideInt, 0, found.len),
        Numeral::Bad => Front::Flawed(Flaw::BadNumber, 0, found.len),
    }
}

// The operator at the front, or the character that begins no token.
fn operator_or_bad(text: &str) -> Front
    requires { 0 < length text.now }
    ensures exact { result ≡ operator_front text.now (operator_of text.now) }
    ensures fits { Fits text.now result }
{
    match operator(text.as_bytes()) {
        Some(found) => Front::Token(TokenKind::Op(found.op), found.len),
        None => Front::Flawed(Flaw::BadCharacter, 0, char_len(text)),
    }
}

fn token(alloc: Global, text: &str) -> Result<Front, AllocError>
    requires { 0 < length text.now }
    ensures exact { IfOk result (λ front. front ≡ token_front text.now) }
    ensures fits { IfOk result (Fits text.now) }
{
    if begins_with_quote(text.as_bytes()) {
        return Ok(literal(text, 0, NO_PREFIX));
    }
    if begins_word(text) {
        return word(alloc, text, word_len(text));
    }
    if starts_numeral(text.as_bytes()) {
        return Ok(numeral(first_numeral(text)));
    }
    Ok(operator_or_bad(text))
}

/// What stands at the front of a text.
pub(crate) fn at_front(alloc: Global, text: &str) -> Result<Front, AllocError>
    requires { 0 < length text.now }
    ensures exact { IfOk result (λ front. front ≡ front_of text.now) }
    ensures fits { IfOk result (Fits text.now) }
{
    let separator = separator_len(text);
    if separator > 0 {
        return Ok(Front::Separator(separator));
    }
    let line_end = line_end_len(text.as_bytes());
    if line_end > 0 {
        return Ok(Front::LineEnd(line_end));
    }
    token(alloc, text)
}

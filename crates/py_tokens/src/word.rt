//! Names: how long the word at the front of a text is, and what a word says.
ghost use Rattle.std.specs.Prelude.{◌≡◌, ◌≤◌, nat_le, length, map, chars, IfOk};
ghost use Rattle.std.specs.Str.{bytes_eq, IsCharBoundary, str_eq_ignore_ascii_case};
ghost use Rattle.py_tokens.specs.Keywords.{keyword_of};
ghost use Rattle.py_tokens.specs.Rows.{first_said};
ghost use Rattle.py_tokens.specs.Words.{is_normal, word_len, first_passes, begins_word, prefix_of};

use crate::literal::Prefix;
use crate::runs::run_of_name;
use crate::token::Keyword;
use std::alloc::{AllocError, Global};
use unicode_ident::{is_xid_continue, is_xid_start};
use unicode_normalization::is_nfkc;

// Each keyword and how it is spelled.
const KEYWORD_ROWS: [(&str, Keyword); 35] = [
    ("False", Keyword::KwFalse),
    ("None", Keyword::KwNone),
    ("True", Keyword::KwTrue),
    ("and", Keyword::KwAnd),
    ("as", Keyword::KwAs),
    ("assert", Keyword::KwAssert),
    ("async", Keyword::KwAsync),
    ("await", Keyword::KwAwait),
    ("break", Keyword::KwBreak),
    ("class", Keyword::KwClass),
    ("continue", Keyword::KwContinue),
    ("def", Keyword::KwDef),
    ("del", Keyword::KwDel),
    ("elif", Keyword::KwElif),
    ("else", Keyword::KwElse),
    ("except", Keyword::KwExcept),
    ("finally", Keyword::KwFinally),
    ("for", Keyword::KwFor),
    ("from", Keyword::KwFrom),
    ("global", Keyword::KwGlobal),
    ("if", Keyword::KwIf),
    ("import", Keyword::KwImport),
    ("in", Keyword::KwIn),
    ("is", Keyword::KwIs),
    ("lambda", Keyword::KwLambda),
    ("nonlocal", Keyword::KwNonlocal),
    ("not", Keyword::KwNot),
    ("or", Keyword::KwOr),
    ("pass", Keyword::KwPass),
    ("raise", Keyword::KwRaise),
    ("return", Keyword::KwReturn),
    ("try", Keyword::KwTry),
    ("while", Keyword::KwWhile),
    ("with", Keyword::KwWith),
    ("yield", Keyword::KwYield),
];

// The length of the longest run of characters of XID_Continue at the front.
fn run_of_letters(text: &str) -> usize
    ensures exact { result ≡ word_len text.now }
    ensures within { result ≤ length text.now }
    ensures cut { IsCharBoundary text.now result }
{
    text.find(|ch: char| !is_xid_continue(ch))
        .unwrap_or(text.len())
}

// Whether the first character of a text is one past ASCII.
fn is_past_ascii(text: &[u8]) -> bool
    ensures { result ≡ first_passes (nat_le 128) text.now }
{
    matches!(text, [128..=255, ..])
}

/// How many bytes the word at the front of a text has: the longest run of characters of XID_Continue.
pub(crate) fn word_len(text: &str) -> usize
    ensures exact { result ≡ word_len text.now }
    ensures within { result ≤ length text.now }
    ensures cut { IsCharBoundary text.now result }
{
    // Most words are ASCII, which the kernel reads fast.
    let len = run_of_name(text.as_bytes());
    let rest = &text[len..];
    if is_past_ascii(rest.as_bytes()) {
        len + run_of_letters(rest)
    } else {
        len
    }
}

/// Whether a text begins with a character that a name may begin with: XID_Start or `_`.
pub(crate) fn begins_word(text: &str) -> bool
    ensures { result ≡ begins_word text.now }
{
    text.starts_with(|ch: char| is_xid_start(ch) || ch == '_')
}

/// Whether a word is in the normal form NFKC.
pub(crate) fn is_normal(alloc: Global, word: &str) -> Result<bool, AllocError>
    ensures { IfOk result (λ normal. normal ≡ is_normal word.now) }
{
    if word.is_ascii() {
        return Ok(true);
    }
    is_nfkc(alloc, word)
}

fn find_keyword(word: &str, rows: &[(&str, Keyword)]) -> Option<Keyword>
    ensures { result ≡ first_said (bytes_eq word.now) (λ row. row.1) (map (λ row. (row.0.now, row.1)) rows.now) }
{
    let (_, keyword) = rows.iter().find(|row| word == row.0)?;
    Some(*keyword)
}

/// The keyword that a word is.
pub(crate) fn keyword(word: &str) -> Option<Keyword>
    ensures { result ≡ keyword_of word.now }
{
    find_keyword(word, &KEYWORD_ROWS)
}

fn is_in_any_case(word: &[u8], letters: &[u8]) -> bool
    ensures { result ≡ str_eq_ignore_ascii_case word.now letters.now }
{
    word.eq_ignore_ascii_case(letters)
}

/// What a name that stands directly before a quote says of the text.
pub(crate) fn prefix(word: &[u8]) -> Option<Prefix>
    ensures { result ≡ prefix_of word.now }
{
    let (raw, bytes) = if is_in_any_case(word, b"r") {
        (true, false)
    } else if is_in_any_case(word, b"u") {
        (false, false)
    } else if is_in_any_case(word, b"b") {
        (false, true)
    } else if is_in_any_case(word, b"br") || is_in_any_case(word, b"rb") {
        (true, true)
    } else {
        return None;
    };
    Some(Prefix { raw, bytes })
}

//! Why a text has no tokens.
use place_ids::Span;
use thiserror::Error;

/// Why a text has no tokens. But for `Memory` it is the first fault that a scan from the left meets, with the bytes
/// that are at fault.
#[derive(Clone, Copy, Debug, PartialEq, Eq, Error)]
pub enum TokenFault {
    /// A line is indented less than the one before, and not as any block that it may go on with ("Indentation").
    #[error("bad indentation")]
    BadIndent(Span),
    /// A line's leading space has tabs and spaces, or is of another kind than that of the first indented line.
    #[error("tabs and spaces are mixed")]
    MixedTabs(Span),
    /// A character that begins no token, or that its token can't hold.
    #[error("a character that no token has")]
    BadCharacter(Span),
    /// A text or bytes literal that isn't closed.
    #[error("a literal that isn't closed")]
    OpenString(Span),
    /// The last bracket that isn't closed at the end of the text.
    #[error("a bracket that isn't closed")]
    OpenBracket(Span),
    /// A numeric literal that isn't well formed, or that a character of a name follows.
    #[error("a malformed number")]
    BadNumber(Span),
    /// An integer above 2^128 - 1.
    #[error("too great an integer")]
    WideInt(Span),
    /// A name that isn't in the normal form NFKC.
    #[error("a name that isn't in NFKC")]
    NotNfkc(Span),
    /// A name before a quote that is no prefix of a literal ("String and Bytes literals").
    #[error("a prefix that no literal has")]
    Prefix(Span),
    #[error("out of memory")]
    Memory,
}

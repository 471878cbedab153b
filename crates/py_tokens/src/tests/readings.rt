//! What a text is read as, in words.
use crate::{TokenFault, TokenKind, Tokens, tokens};
use place_ids::Span;
use std::alloc::Global;
use std::test::Fail;

/// The tokens of a text. None here is longer than the limit.
pub(crate) fn read(alloc: Global, text: &str) -> Result<Tokens, TokenFault> {
    if text.len() > 262144 {
        return Err(TokenFault::Memory);
    }
    tokens(alloc, text)
}

/// The word of a token: `str0` and `bytes0` are empty literals.
pub(crate) fn word(kind: &TokenKind) -> &'static str {
    match kind {
        TokenKind::Name(_) => "name",
        TokenKind::Keyword(_) => "kw",
        TokenKind::Int(_) => "int",
        TokenKind::Float => "float",
        TokenKind::Imaginary => "imag",
        TokenKind::Str(true) => "str0",
        TokenKind::Str(false) => "str",
        TokenKind::Bytes(true) => "bytes0",
        TokenKind::Bytes(false) => "bytes",
        TokenKind::Op(_) => "op",
        TokenKind::Newline => "nl",
        TokenKind::Indent => "in",
        TokenKind::Dedent => "de",
        TokenKind::End => "end",
    }
}

const NOWHERE: Span = Span {
    start: 0,
    end: 0,
    line: 0,
};

/// The word of a fault, and where it stands.
pub(crate) fn fault_parts(fault: TokenFault) -> (&'static str, Span) {
    match fault {
        TokenFault::BadIndent(span) => ("bad-indent", span),
        TokenFault::MixedTabs(span) => ("mixed-tabs", span),
        TokenFault::BadCharacter(span) => ("bad-character", span),
        TokenFault::OpenString(span) => ("open-string", span),
        TokenFault::OpenBracket(span) => ("open-bracket", span),
        TokenFault::BadNumber(span) => ("bad-number", span),
        TokenFault::WideInt(span) => ("wide-int", span),
        TokenFault::NotNfkc(span) => ("not-nfkc", span),
        TokenFault::Prefix(span) => ("prefix", span),
        TokenFault::Memory => ("memory", NOWHERE),
    }
}

fn words(alloc: Global, found: &Tokens) -> Result<String, Fail> {
    let mut words = String::new(alloc);
    for place in 0..found.len() {
        if place > 0 {
            words.push_str(" ")?;
        }
        if let Some(token) = found.get(place) {
            words.push_str(word(&token.kind))?;
        }
    }
    Ok(words)
}

/// A word for each token of a text, or the word of its fault and the fault's line.
pub(crate) fn reading(alloc: Global, text: &str) -> Result<String, Fail> {
    match read(alloc, text) {
        Ok(found) => words(alloc, &found),
        Err(fault) => {
            let (name, span) = fault_parts(fault);
            let line = span.line;
            Ok(format!(in alloc; "{name} {line}")?)
        }
    }
}

//! What the tokens of a text are parsed as.
use place_ids::Span;
use py_parse::{ParseFault, parse};
use py_tokens::{Form, TokenFault, Tokens, tokens};
use py_tree::Module;
use std::alloc::Global;
use std::process::Abort;
use std::test::Fail;

// The tokens of a text. None here is longer than the limit.
fn read(alloc: Global, text: &str) -> Result<Tokens, TokenFault> {
    if text.len() > 262144 {
        return Err(TokenFault::Memory);
    }
    tokens(alloc, text)
}

/// The tree of a text, or why there is none.
pub(crate) fn parsed(alloc: Global, text: &str) -> Result<Result<Module, ParseFault>, Fail> {
    let tokens = read(alloc, text)?;
    Ok(parse(alloc, &tokens))
}

// The names of forms: the first half.
fn early_word(form: Form) -> Option<&'static str> {
    match form {
        Form::Lambda => Some("lambda"),
        Form::Yield => Some("yield"),
        Form::Async => Some("async"),
        Form::Await => Some("await"),
        Form::With => Some("with"),
        Form::Finally => Some("finally"),
        Form::Del => Some("del"),
        Form::Nonlocal => Some("nonlocal"),
        Form::Global => Some("global"),
        Form::NestedFunction => Some("nested-function"),
        Form::NestedClass => Some("nested-class"),
        Form::Decorator => Some("decorator"),
        Form::Comprehension => Some("comprehension"),
        Form::Walrus => Some("walrus"),
        Form::StarParam => Some("star-param"),
        Form::StarArg => Some("star-arg"),
        Form::LoopElse => Some("loop-else"),
        Form::ChainedCompare => Some("chained-compare"),
        _ => None,
    }
}

fn late_word(form: Form) -> &'static str {
    match form {
        Form::Complex => "complex",
        Form::MultipleBases => "multiple-bases",
        Form::ClassKeyword => "class-keyword",
        Form::SpecialMethod => "special-method",
        Form::SpecialAttribute => "special-attribute",
        Form::PrivateName => "private-name",
        Form::Default => "default",
        Form::SuperForm => "super-form",
        Form::SetDisplay => "set-display",
        Form::DottedImport => "dotted-import",
        Form::RelativeImport => "relative-import",
        Form::StarImport => "star-import",
        Form::SliceStore => "slice-store",
        Form::Ellipsis => "ellipsis",
        Form::ClassBody => "class-body",
        _ => "",
    }
}

const NOWHERE: Span = Span {
    start: 0,
    end: 0,
    line: 0,
};

fn fault_parts(fault: ParseFault) -> (&'static str, Span) {
    match fault {
        ParseFault::Unexpected(span) => ("unexpected", span),
        ParseFault::OutOfProfile(form, span) => {
            (early_word(form).unwrap_or(late_word(form)), span)
        }
        ParseFault::TooDeep(span) => ("too-deep", span),
        ParseFault::Memory => ("memory", NOWHERE),
    }
}

// The bytes of a span.
fn cut(text: &str, span: Span) -> &str {
    text.get(span.start as usize..span.end as usize)
        .unwrap_or("")
}

/// `ok`, or the name of the refusal, its line and the text of its token.
pub(crate) fn verdict(alloc: Global, text: &str) -> Result<String, Fail> {
    match parsed(alloc, text)? {
        Ok(_) => Ok(String::from_str(alloc, "ok")?),
        Err(fault) => {
            let (name, span) = fault_parts(fault);
            let line = span.line;
            let token = cut(text, span);
            Ok(format!(in alloc; "{name} {line} {token}")?)
        }
    }
}

/// Compares the verdict of each text with the one beside it.
pub(crate) fn compare(rt: &impl Abort, alloc: Global, rows: &[(&str, &str)]) -> Result<(), Fail> {
    for (text, expected) in rows {
        let found = verdict(alloc, text)?;
        assert_eq!(rt; found.as_str(), *expected, "at {text:?}");
    }
    Ok(())
}

//! What names, keywords and prefixes are, from the rules of Python's lexical analysis.
use crate::literal::Prefix;
use crate::token::Keyword;
use crate::word::{begins_word, is_normal, keyword, prefix, word_len};
use std::test::Fail;

#[test]
fn a_word_ends_before_what_is_no_letter(rt: HostRuntime) {
    let words = [
        ("", 0),
        ("+a", 0),
        ("a", 1),
        ("_", 1),
        ("a1 b", 2),
        ("é", 2),
        ("aé_1+", 5),
        ("x²", 1),
        ("ﬁ", 3),
        ("abcdefghijklmnopqrstuvwxyz012345+", 32),
        ("abcdefghijklmnopqrstuvwxyz012345é", 34),
        ("abcdefghijklmnopqrstuvwxyz012345_", 33),
        (
            "abcdefghijklmnopqrstuvwxyz012345abcdefghijklmnopqrstuvwxyz012345_",
            65,
        ),
    ];
    for (text, len) in words {
        assert_eq!(rt; word_len(text), len, "at {text}");
    }
}

#[test]
fn a_name_begins_with_a_letter_or_an_underscore(rt: HostRuntime) {
    let texts = [
        ("a1", true),
        ("_", true),
        ("é", true),
        ("ﬁ", true),
        ("", false),
        ("1a", false),
        ("²", false),
        ("\u{301}", false),
        ("+", false),
    ];
    for (text, begins) in texts {
        assert_eq!(rt; begins_word(text), begins, "at {text}");
    }
}

#[test]
fn a_name_may_be_outside_nfkc(rt: HostRuntime) -> Result<(), Fail> {
    let words = [
        ("a_1", true),
        ("é", true),
        ("ﬁ", false),
        ("e\u{301}", false),
    ];
    for (word, normal) in words {
        assert_eq!(rt; is_normal(rt.alloc(), word)?, normal, "at {word}");
    }
    Ok(())
}

#[test]
fn keywords_are_known_by_their_spelling(rt: HostRuntime) {
    let keywords = [
        ("False", Keyword::KwFalse),
        ("None", Keyword::KwNone),
        ("True", Keyword::KwTrue),
        ("and", Keyword::KwAnd),
        ("as", Keyword::KwAs),
        ("assert", Keyword::KwAssert),
        ("async", Keyword::KwAsync),
        ("await", Keyword::KwAwait),
        ("break", Keyword::KwBreak),
        ("class", Keyword::KwClass),
        ("continue", Keyword::KwContinue),
        ("def", Keyword::KwDef),
        ("del", Keyword::KwDel),
        ("elif", Keyword::KwElif),
        ("else", Keyword::KwElse),
        ("except", Keyword::KwExcept),
        ("finally", Keyword::KwFinally),
        ("for", Keyword::KwFor),
        ("from", Keyword::KwFrom),
        ("global", Keyword::KwGlobal),
        ("if", Keyword::KwIf),
        ("import", Keyword::KwImport),
        ("in", Keyword::KwIn),
        ("is", Keyword::KwIs),
        ("lambda", Keyword::KwLambda),
        ("nonlocal", Keyword::KwNonlocal),
        ("not", Keyword::KwNot),
        ("or", Keyword::KwOr),
        ("pass", Keyword::KwPass),
        ("raise", Keyword::KwRaise),
        ("return", Keyword::KwReturn),
        ("try", Keyword::KwTry),
        ("while", Keyword::KwWhile),
        ("with", Keyword::KwWith),
        ("yield", Keyword::KwYield),
    ];
    for (word, expected) in keywords {
        assert_eq!(rt; keyword(word), Some(expected), "at {word}");
    }
    for word in ["", "false", "If", "ifs", "print", "match", "é"] {
        assert_eq!(rt; keyword(word), None, "at {word}");
    }
}

#[test]
fn a_prefix_is_of_any_case(rt: HostRuntime) {
    let prefixes = [
        ("r", true, false),
        ("R", true, false),
        ("u", false, false),
        ("U", false, false),
        ("b", false, true),
        ("B", false, true),
        ("br", true, true),
        ("bR", true, true),
        ("Br", true, true),
        ("BR", true, true),
        ("rb", true, true),
        ("rB", true, true),
        ("Rb", true, true),
        ("RB", true, true),
    ];
    for (word, raw, bytes) in prefixes {
        let expected = Prefix { raw, bytes };
        assert_eq!(rt; prefix(word.as_bytes()), Some(expected), "at {word}");
    }
    for word in ["", "f", "ur", "bb", "rr", "brr"] {
        assert_eq!(rt; prefix(word.as_bytes()), None, "at {word}");
    }
}

//! What texts are read as, from the rules of Python's lexical analysis.
use super::readings::{fault_parts, read, reading, word};
use place_ids::Span;
use std::alloc::Global;
use std::process::Abort;
use std::test::Fail;

// Each row is a text, and what it is read as.
fn compare(rt: &impl Abort, alloc: Global, rows: &[(&str, &str)]) -> Result<(), Fail> {
    for (text, expected) in rows {
        assert_eq!(rt; reading(alloc, text)?.as_str(), *expected, "at {text:?}");
    }
    Ok(())
}

#[rattlefmt::skip]
const MARKS: [(&str, &str); 14] = [
    ("", "end"),
    ("\n\n", "end"),
    ("\r", "end"),
    ("x", "name nl end"),
    ("\u{feff}", "end"),
    ("\u{feff}x", "name nl end"),
    ("\u{feff} x", "in name nl de end"),
    ("\u{feff}\u{feff}x", "bad-character 1"),
    ("x\u{feff}", "bad-character 1"),
    ("x\n\u{feff}y", "bad-character 2"),
    ("x\ny\n", "name nl name nl end"),
    ("x\r\ny\r\n", "name nl name nl end"),
    ("x\ry\r", "name nl name nl end"),
    ("x\n\ry", "name nl name nl end"),
];

#[test]
fn marks_and_line_ends_are_read(rt: HostRuntime) -> Result<(), Fail> {
    compare(&rt, rt.alloc(), &MARKS)
}

#[rattlefmt::skip]
const SPACES: [(&str, &str); 20] = [
    ("x = 1", "name op int nl end"),
    ("x\t=\x0C1", "name op int nl end"),
    ("x \t\x0C\x0C", "name nl end"),
    ("x\x0By", "bad-character 1"),
    ("x\u{a0}y", "bad-character 1"),
    ("\x0Cx\n", "name nl end"),
    ("x\n\x0Cy\n", "name nl name nl end"),
    ("\x0C x\n", "in name nl de end"),
    ("a\n b\n\x0C c\n", "name nl in name nl name nl de end"),
    ("\x0C\n", "end"),
    ("x\n\x0C# c\n", "name nl end"),
    ("\x0C\x0Cx\n", "bad-character 1"),
    (" \x0Cx\n", "bad-character 1"),
    ("\x0C \x0Cx\n", "bad-character 1"),
    ("x\n\x0C\x0C\n", "bad-character 2"),
    ("x\n \x0C# c\n", "bad-character 2"),
    ("x\n \x0C", "bad-character 2"),
    ("x = \\\n\x0C\x0C1", "name op int nl end"),
    (" \\\n\x0Cx", "in name nl de end"),
    ("(\n \x0Cx)", "op name op nl end"),
];

#[test]
fn space_separates(rt: HostRuntime) -> Result<(), Fail> {
    compare(&rt, rt.alloc(), &SPACES)
}

#[rattlefmt::skip]
const COMMENTS: [(&str, &str); 9] = [
    ("# c", "end"),
    ("  # c\nx", "name nl end"),
    ("x # c", "name nl end"),
    ("x # c\ny", "name nl name nl end"),
    ("x #\ry", "name nl name nl end"),
    ("x # ' $ (\n", "name nl end"),
    ("x # c\\\ny", "name nl name nl end"),
    ("(# )\n)", "op op nl end"),
    ("'#'", "str nl end"),
];

#[test]
fn comments_are_passed(rt: HostRuntime) -> Result<(), Fail> {
    compare(&rt, rt.alloc(), &COMMENTS)
}

#[rattlefmt::skip]
const JOINS: [(&str, &str); 19] = [
    ("x = 1\\\n", "name op int nl end"),
    ("x = \\\n1", "name op int nl end"),
    ("x = \\\r\n1", "name op int nl end"),
    ("x = \\\r1", "name op int nl end"),
    ("ab\\\ncd", "name name nl end"),
    ("1\\\n2", "int int nl end"),
    ("x\\\n\ny", "name nl name nl end"),
    ("\\\n", "end"),
    ("\\\n  x\n", "name nl end"),
    ("  \\\nx\n", "in name nl de end"),
    ("a\n  b\n  \\\nc\n", "name nl in name nl name nl de end"),
    ("a\n  b\n\\\n  c\n", "name nl in name nl de name nl end"),
    ("a\n \\\n\t b\n c", "name nl in name nl name nl de end"),
    ("a\n \\\n# c\nb", "name nl name nl end"),
    ("(\\\n)", "op op nl end"),
    ("x \\", "bad-character 1"),
    ("x \\ \n", "bad-character 1"),
    ("x \\# c\n", "bad-character 1"),
    ("x \\\n\\y", "bad-character 2"),
];

#[test]
fn joins_take_a_line_end_away(rt: HostRuntime) -> Result<(), Fail> {
    compare(&rt, rt.alloc(), &JOINS)
}

#[rattlefmt::skip]
const BLOCKS: [(&str, &str); 13] = [
    (" a", "in name nl de end"),
    ("if a:\n  x\n", "kw name op nl in name nl de end"),
    ("if a:\n  x\ny\n", "kw name op nl in name nl de name nl end"),
    ("a\n b\n b\n", "name nl in name nl name nl de end"),
    ("a\n b\n  c\nd", "name nl in name nl in name nl de de name nl end"),
    ("a\n b\n  c\n d", "name nl in name nl in name nl de name nl de end"),
    ("a\n b\n  c", "name nl in name nl in name nl de de end"),
    ("a\n b\nc\n   d\n", "name nl in name nl de name nl in name nl de end"),
    ("a\n\tb\n\t\tc\n\td", "name nl in name nl in name nl de name nl de end"),
    ("a\n    \nb", "name nl name nl end"),
    ("a\n b\n\n# c\n     # d\n b", "name nl in name nl name nl de end"),
    ("a\n b\n \t\n\t# c\n b", "name nl in name nl name nl de end"),
    ("a\n b\n# c", "name nl in name nl de end"),
];

#[test]
fn leading_space_makes_blocks(rt: HostRuntime) -> Result<(), Fail> {
    compare(&rt, rt.alloc(), &BLOCKS)
}

#[rattlefmt::skip]
const BAD_BLOCKS: [(&str, &str); 13] = [
    ("a\n  b\n c", "bad-indent 3"),
    ("a\n b\n   c\n  d", "bad-indent 4"),
    ("a\n  b\n   c\n d", "bad-indent 4"),
    ("a\n  b\n ?", "bad-indent 3"),
    ("a\n \tb", "mixed-tabs 2"),
    ("a\n\t b", "mixed-tabs 2"),
    (" \ta", "mixed-tabs 1"),
    ("a\n b\nc\n\td", "mixed-tabs 4"),
    ("a\n\tb\nc\n d", "mixed-tabs 4"),
    ("a\n\tb\n        c", "mixed-tabs 3"),
    ("a\n    b\n            c\n\td", "mixed-tabs 4"),
    ("a\n    b\n            c\n \td", "mixed-tabs 4"),
    ("a\n \t?", "mixed-tabs 2"),
];

#[test]
fn bad_leading_space_is_a_fault(rt: HostRuntime) -> Result<(), Fail> {
    compare(&rt, rt.alloc(), &BAD_BLOCKS)
}

#[rattlefmt::skip]
const BRACKETS: [(&str, &str); 18] = [
    ("(1,\n 2)\n", "op int op int op nl end"),
    ("[\n\n\t x\n  y]", "op name name op nl end"),
    ("{\r\n# c\r\n}", "op op nl end"),
    ("a(\n  b\n)\nc", "name op name op nl name nl end"),
    ("a (\n\tb)\n c", "name op name op nl in name nl de end"),
    (")", "op nl end"),
    (")\nx", "op nl name nl end"),
    ("())\nx", "op op op nl name nl end"),
    ("(]\nx", "op op nl name nl end"),
    ("([)}\nx", "op op op op nl name nl end"),
    ("([)\nx", "open-bracket 1"),
    ("(", "open-bracket 1"),
    ("(\n", "open-bracket 1"),
    (")(", "open-bracket 1"),
    ("(\n[\n{", "open-bracket 3"),
    ("(\n[\n]\n", "open-bracket 1"),
    ("}\n(\n x\n", "open-bracket 2"),
    ("a\n  (\n", "open-bracket 2"),
];

#[test]
fn brackets_hold_lines_together(rt: HostRuntime) -> Result<(), Fail> {
    compare(&rt, rt.alloc(), &BRACKETS)
}

#[rattlefmt::skip]
const NAMES: [(&str, &str); 25] = [
    ("_ _x1 é 名 If ifs", "name name name name name name nl end"),
    ("if None True False", "kw kw kw kw nl end"),
    ("print match", "name name nl end"),
    ("ﬁ = 1", "not-nfkc 1"),
    ("x\ne\u{301}", "not-nfkc 2"),
    ("x²", "bad-character 1"),
    ("²", "bad-character 1"),
    ("\u{301}", "bad-character 1"),
    ("r'a' R'' u'a' U''", "str str0 str str0 nl end"),
    ("b'a' B''", "bytes bytes0 nl end"),
    ("br'a' bR'' Br'a' BR''", "bytes bytes0 bytes bytes0 nl end"),
    ("rb'a' rB'' Rb'a' RB''", "bytes bytes0 bytes bytes0 nl end"),
    ("RB'''a''' u\"\"\"\"\"\"", "bytes str0 nl end"),
    ("r 'a'", "name str nl end"),
    ("b 'é'", "name str nl end"),
    ("a\"b\"", "prefix 1"),
    ("f'a'", "prefix 1"),
    ("ur'a'", "prefix 1"),
    ("bb''", "prefix 1"),
    ("é''", "prefix 1"),
    ("x\na'", "prefix 2"),
    ("ﬁ'a'", "not-nfkc 1"),
    ("in\"a\"", "kw str nl end"),
    ("None''", "kw str0 nl end"),
    ("in'a", "open-string 1"),
];

#[test]
fn names_keywords_and_prefixes_are_read(rt: HostRuntime) -> Result<(), Fail> {
    compare(&rt, rt.alloc(), &NAMES)
}

#[rattlefmt::skip]
const LITERALS: [(&str, &str); 16] = [
    ("'' \"\"", "str0 str0 nl end"),
    ("'''''' \"\"\"\"\"\"", "str0 str0 nl end"),
    ("'a' \"a\" '\"' \"'\"", "str str str str nl end"),
    ("'''a''b'''", "str nl end"),
    ("'''a\n\nb'''", "str nl end"),
    ("b'''\n'''", "bytes nl end"),
    ("\"a\"\"b\"", "str str nl end"),
    ("''x", "str0 name nl end"),
    ("'a'b''", "str bytes0 nl end"),
    ("'a'f''", "prefix 1"),
    ("'\\'' '\\\\'", "str str nl end"),
    ("r'\\'' r'\\\\'", "str str nl end"),
    ("'\\\n'", "str0 nl end"),
    ("b'\\\r\n'", "bytes0 nl end"),
    ("r'\\\n' rb'\\\r'", "str bytes nl end"),
    ("'a\\\nb'", "str nl end"),
];

#[test]
fn literals_are_read(rt: HostRuntime) -> Result<(), Fail> {
    compare(&rt, rt.alloc(), &LITERALS)
}

#[rattlefmt::skip]
const OPEN_LITERALS: [(&str, &str); 18] = [
    ("'", "open-string 1"),
    ("x\n'a", "open-string 2"),
    ("'a\n'", "open-string 1"),
    ("'a\r'", "open-string 1"),
    ("'a\\\nb\nc'", "open-string 1"),
    ("r'\\'", "open-string 1"),
    ("'\\", "open-string 1"),
    ("''''", "open-string 1"),
    ("x\n\"\"\"a\n\n", "open-string 2"),
    ("x\n\n'''a\n''", "open-string 3"),
    ("'é' r'é' '''é'''", "str str str nl end"),
    ("b'a' 'é'", "bytes str nl end"),
    ("b'é'", "bad-character 1"),
    ("rb'\\é'", "bad-character 1"),
    ("b'a\\\né'", "bad-character 2"),
    ("x\r\nb'''\r\n\r\né", "bad-character 4"),
    ("b'é", "bad-character 1"),
    ("b'a\né'", "open-string 1"),
];

#[test]
fn open_literals_and_foreign_characters_are_faults(rt: HostRuntime) -> Result<(), Fail> {
    compare(&rt, rt.alloc(), &OPEN_LITERALS)
}

#[rattlefmt::skip]
const NUMBERS: [(&str, &str); 19] = [
    ("0 00 0_0 7 1_0 1_000_000", "int int int int int int nl end"),
    ("0x1F 0X_ff 0b101 0B_1 0o17 0O7", "int int int int int int nl end"),
    ("1. .5 1.5 0. 07.5 1_0.0_1", "float float float float float float nl end"),
    ("1e5 1E+5 1e-5 1.e5 00e0 .5e1_0", "float float float float float float nl end"),
    ("1j 1J 1.5j 1e5j 07j .5j", "imag imag imag imag imag imag nl end"),
    ("1 .real", "int op name nl end"),
    ("1..2", "float float nl end"),
    ("1+1", "int op int nl end"),
    ("1e+5+1", "float op int nl end"),
    ("340282366920938463463374607431768211455", "int nl end"),
    ("0xffffffffffffffffffffffffffffffff", "int nl end"),
    ("340282366920938463463374607431768211456", "wide-int 1"),
    ("0x100000000000000000000000000000000", "wide-int 1"),
    ("x = -\\\n340282366920938463463374607431768211456", "wide-int 2"),
    ("340282366920938463463374607431768211456a", "bad-number 1"),
    ("340282366920938463463374607431768211456.0", "float nl end"),
    ("340282366920938463463374607431768211456j", "imag nl end"),
    ("1\"a\"", "int str nl end"),
    ("1.5'a' 1j''", "float str imag str0 nl end"),
];

#[test]
fn numbers_are_read(rt: HostRuntime) -> Result<(), Fail> {
    compare(&rt, rt.alloc(), &NUMBERS)
}

#[rattlefmt::skip]
const BAD_NUMBERS: [(&str, &str); 24] = [
    ("07", "bad-number 1"),
    ("00_7", "bad-number 1"),
    ("0_7", "bad-number 1"),
    ("1__0", "bad-number 1"),
    ("1_", "bad-number 1"),
    ("x = \\\n1_a", "bad-number 2"),
    ("0x", "bad-number 1"),
    ("0xg", "bad-number 1"),
    ("0x_", "bad-number 1"),
    ("0x1__2", "bad-number 1"),
    ("0b2", "bad-number 1"),
    ("0b12", "bad-number 1"),
    ("0o18", "bad-number 1"),
    ("0x1j", "bad-number 1"),
    ("1e", "bad-number 1"),
    ("1e+", "bad-number 1"),
    ("1e5_", "bad-number 1"),
    ("1.5e", "bad-number 1"),
    ("1._0", "bad-number 1"),
    ("1.a", "bad-number 1"),
    ("1jx", "bad-number 1"),
    ("1if", "bad-number 1"),
    ("1é", "bad-number 1"),
    ("1²", "bad-character 1"),
];

#[test]
fn malformed_numbers_are_faults(rt: HostRuntime) -> Result<(), Fail> {
    compare(&rt, rt.alloc(), &BAD_NUMBERS)
}

#[rattlefmt::skip]
const OPERATORS: [(&str, &str); 14] = [
    ("+ - * ** / // % @", "op op op op op op op op nl end"),
    ("<< >> & | ^ ~ <> <= >= == !=", "op op op op op op op op op op op op nl end"),
    ("() [] {} , : . ; =", "op op op op op op op op op op op nl end"),
    ("-> := ... .... ..", "op op op op op op op nl end"),
    ("+= -= *= /= //= %= @=", "op op op op op op op nl end"),
    ("&= |= ^= >>= <<= **=", "op op op op op op nl end"),
    ("x!=y", "name op name nl end"),
    ("!", "bad-character 1"),
    ("x ! = y", "bad-character 1"),
    ("$", "bad-character 1"),
    ("x\n?", "bad-character 2"),
    ("`x`", "bad-character 1"),
    ("\0", "bad-character 1"),
    ("€", "bad-character 1"),
];

#[test]
fn operators_are_read(rt: HostRuntime) -> Result<(), Fail> {
    compare(&rt, rt.alloc(), &OPERATORS)
}

#[rattlefmt::skip]
const FIRST_FAULTS: [(&str, &str); 11] = [
    ("? \"", "bad-character 1"),
    ("\"a\n?", "open-string 1"),
    ("\"a ?", "open-string 1"),
    ("(\n?", "bad-character 2"),
    ("(\n\n07 ?", "bad-number 3"),
    ("ﬁ\n07", "not-nfkc 1"),
    ("07\nﬁ", "bad-number 1"),
    ("f'a\n ?", "prefix 1"),
    ("a\n  b\n c\n \td", "bad-indent 3"),
    ("a\n \tb\n ?", "mixed-tabs 2"),
    ("(\n'a", "open-string 2"),
];

#[test]
fn the_first_fault_is_the_answer(rt: HostRuntime) -> Result<(), Fail> {
    compare(&rt, rt.alloc(), &FIRST_FAULTS)
}

// A text, the place of one of its tokens, the token's word, and its span: start, end and line.
#[rattlefmt::skip]
const SPANS: [(&str, usize, &str, [u32; 3]); 34] = [
    ("\u{feff}x", 0, "name", [3, 4, 1]),
    ("é = 1", 0, "name", [0, 2, 1]),
    ("é = 1", 1, "op", [3, 4, 1]),
    ("rb'a'", 0, "bytes", [0, 5, 1]),
    ("'''a\n\nb''' x", 0, "str", [0, 10, 1]),
    ("'''a\n\nb''' x", 1, "name", [11, 12, 3]),
    ("'''\r\n''' x", 1, "name", [9, 10, 2]),
    ("'\\\n' x", 1, "name", [5, 6, 2]),
    ("x = \\\ny\n", 2, "name", [6, 7, 2]),
    ("x = \\\ny\n", 3, "nl", [7, 8, 2]),
    ("x = \\\ny\n", 4, "end", [8, 8, 3]),
    ("x = 1\\\n", 3, "nl", [7, 7, 2]),
    ("x = 1\\\n", 4, "end", [7, 7, 2]),
    ("x\r\ny\r\n", 1, "nl", [1, 3, 1]),
    ("x\r\ny\r\n", 2, "name", [3, 4, 2]),
    ("x\r\ny\r\n", 4, "end", [6, 6, 3]),
    ("x\ry", 2, "name", [2, 3, 2]),
    ("x\ry", 3, "nl", [3, 3, 2]),
    ("x # c", 1, "nl", [5, 5, 1]),
    ("x # c\n", 1, "nl", [5, 6, 1]),
    ("", 0, "end", [0, 0, 1]),
    ("\n\n", 0, "end", [2, 2, 3]),
    ("(\n)", 1, "op", [2, 3, 2]),
    ("a\n  b\nc\n", 2, "in", [4, 4, 2]),
    ("a\n  b\nc\n", 5, "de", [6, 6, 3]),
    ("a\n  b\nc\n", 8, "end", [8, 8, 4]),
    ("a\n  b", 4, "nl", [5, 5, 2]),
    ("a\n  b", 5, "de", [5, 5, 2]),
    ("a\n  b", 6, "end", [5, 5, 2]),
    ("a\n b\n  c\n d", 8, "de", [10, 10, 4]),
    ("a\n b\n# c\n", 5, "de", [9, 9, 4]),
    ("\x0C x", 0, "in", [2, 2, 1]),
    ("  \\\n  x", 0, "in", [2, 2, 1]),
    ("  \\\n  x", 1, "name", [6, 7, 2]),
];

#[test]
fn tokens_stand_where_their_bytes_are(rt: HostRuntime) -> Result<(), Fail> {
    for (text, place, expected, [start, end, line]) in SPANS {
        let found = read(rt.alloc(), text)?;
        let at = found
            .get(place)
            .map(|token| (word(&token.kind), token.span));
        let span = Span { start, end, line };
        assert_eq!(rt; at, Some((expected, span)), "at {place} of {text:?}");
    }
    Ok(())
}

// A text, the word of its fault, and the fault's span: start, end and line.
#[rattlefmt::skip]
const FAULTS: [(&str, &str, [u32; 3]); 13] = [
    ("a\n  b\n c", "bad-indent", [6, 7, 3]),
    ("a\n \tb", "mixed-tabs", [2, 4, 2]),
    ("x\n €", "bad-character", [3, 6, 2]),
    ("x \\ ", "bad-character", [2, 3, 1]),
    (" \x0Cx", "bad-character", [1, 2, 1]),
    ("b'''\né'''", "bad-character", [5, 7, 2]),
    ("x 'a\n", "open-string", [2, 4, 1]),
    ("x\nr'''a\n", "open-string", [2, 8, 2]),
    ("(\n [", "open-bracket", [3, 4, 2]),
    ("x = 1__0", "bad-number", [4, 5, 1]),
    ("340282366920938463463374607431768211456", "wide-int", [0, 39, 1]),
    ("x ﬁ", "not-nfkc", [2, 5, 1]),
    ("x = f'a'", "prefix", [4, 5, 1]),
];

#[test]
fn faults_stand_where_their_bytes_are(rt: HostRuntime) {
    for (text, expected, [start, end, line]) in FAULTS {
        let found = read(rt.alloc(), text).err().map(fault_parts);
        let span = Span { start, end, line };
        assert_eq!(rt; found, Some((expected, span)), "at {text:?}");
    }
}

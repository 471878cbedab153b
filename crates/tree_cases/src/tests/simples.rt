//! Simple statements, and lines of them.
use super::readings::compare;
use std::test::Fail;

#[rattlefmt::skip]
const LINES: [(&str, &str); 20] = [
    ("", "ok"),
    ("pass", "ok"),
    ("pass;\n", "ok"),
    ("pass; break; continue; ...\n", "ok"),
    ("x = 1; y = 2;\n", "ok"),
    ("pass pass\n", "unexpected 1 pass"),
    (";\n", "unexpected 1 ;"),
    ("x = 1;; y = 2\n", "unexpected 1 ;"),
    ("x\n;\n", "unexpected 2 ;"),
    ("  x = 1\n", "unexpected 1 "),
    ("x = 1\n  y = 2\n", "unexpected 2 "),
    ("x y\n", "unexpected 1 y"),
    ("x)\n", "unexpected 1 )"),
    ("x = [1)\n", "unexpected 1 )"),
    ("x = 1]\n", "unexpected 1 ]"),
    ("as\n", "unexpected 1 as"),
    ("else: pass\n", "unexpected 1 else"),
    ("except: pass\n", "unexpected 1 except"),
    ("x = (\n1 +\n)\n", "unexpected 3 )"),
    ("x = 1 +", "unexpected 1 "),
];

#[test]
fn lines_hold_simple_statements(rt: HostRuntime) -> Result<(), Fail> {
    compare(&rt, rt.alloc(), &LINES)
}

#[rattlefmt::skip]
const WORDS: [(&str, &str); 22] = [
    ("return\n", "ok"),
    ("return; x\n", "ok"),
    ("return a, b,\n", "ok"),
    ("return a b\n", "unexpected 1 b"),
    ("return = 1\n", "unexpected 1 ="),
    ("raise\n", "ok"),
    ("raise a\n", "ok"),
    ("raise a from b\n", "ok"),
    ("raise from b\n", "unexpected 1 from"),
    ("raise a, b\n", "unexpected 1 ,"),
    ("raise a from b from c\n", "unexpected 1 from"),
    ("raise a from\n", "unexpected 1 \n"),
    ("assert a\n", "ok"),
    ("assert a, b\n", "ok"),
    ("assert\n", "unexpected 1 \n"),
    ("assert a, b, c\n", "unexpected 1 ,"),
    ("assert a = b\n", "unexpected 1 ="),
    ("assert a,\n", "unexpected 1 \n"),
    ("pass = 1\n", "unexpected 1 ="),
    ("break 1\n", "unexpected 1 1"),
    ("continue\nbreak\n", "ok"),
    ("...\n...;\n", "ok"),
];

#[test]
fn each_word_has_its_statement(rt: HostRuntime) -> Result<(), Fail> {
    compare(&rt, rt.alloc(), &WORDS)
}

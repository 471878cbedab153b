//! Statements with blocks.
use super::readings::compare;
use std::test::Fail;

#[rattlefmt::skip]
const BLOCKS: [(&str, &str); 23] = [
    ("if a: pass\n", "ok"),
    ("if a: x = 1; y = 2\nelif b: pass\nelif c: pass\nelse: pass\n", "ok"),
    ("if a:\n    pass\n    if b:\n        pass\n    else:\n        pass\nelse:\n    pass\n", "ok"),
    ("if a:\n\n# c\n    x = 1\n  # d\n\ny = 2\n", "ok"),
    ("while a: pass\nwhile not b:\n    continue\n", "ok"),
    ("if a:\n", "unexpected 2 "),
    ("if a:", "unexpected 1 "),
    ("if a:\nb\n", "unexpected 2 b"),
    ("if a\n    b\n", "unexpected 1 \n"),
    ("if: pass\n", "unexpected 1 :"),
    ("if a, b: pass\n", "unexpected 1 ,"),
    ("if a = b: pass\n", "unexpected 1 ="),
    ("if a: if b: pass\n", "unexpected 1 if"),
    ("if a: pass\nelse if b: pass\n", "unexpected 2 if"),
    ("if a: pass\nelse: pass\nelse: pass\n", "unexpected 3 else"),
    ("if a: pass\nelse: pass\nelif b: pass\n", "unexpected 3 elif"),
    ("if a: pass\nelif: pass\n", "unexpected 2 :"),
    ("if a:\n    pass\n  \nb\n", "ok"),
    ("if a:\n    pass\n        pass\n", "unexpected 3 "),
    ("while: pass\n", "unexpected 1 :"),
    ("while a, b: pass\n", "unexpected 1 ,"),
    ("x = 1; if a: pass\n", "unexpected 1 if"),
    ("if a: return; x\nb\n", "ok"),
];

#[test]
fn blocks_follow_headers(rt: HostRuntime) -> Result<(), Fail> {
    compare(&rt, rt.alloc(), &BLOCKS)
}

#[rattlefmt::skip]
const LOOPS: [(&str, &str); 25] = [
    ("for x in y: pass\n", "ok"),
    ("for a, (b, [c]), d.e, f[0], in g, h:\n    break\n", "ok"),
    ("for (a) in b: pass\n", "ok"),
    ("for f(x).y in z: pass\n", "ok"),
    ("for 1 .x in y: pass\n", "ok"),
    ("for a + b in c: pass\n", "unexpected 1 +"),
    ("for f(x) in c: pass\n", "unexpected 1 in"),
    ("for 1 in c: pass\n", "unexpected 1 in"),
    ("for (a + b) in c: pass\n", "unexpected 1 in"),
    ("for a, f(x), b in c: pass\n", "unexpected 1 ,"),
    ("for () in c: pass\n", "unexpected 1 in"),
    ("for x[1:2] in y: pass\n", "unexpected 1 in"),
    ("for super().a in y: pass\n", "unexpected 1 in"),
    ("for -a in b: pass\n", "unexpected 1 -"),
    ("for in b: pass\n", "unexpected 1 in"),
    ("for a b in c: pass\n", "unexpected 1 b"),
    ("for a in: pass\n", "unexpected 1 :"),
    ("for a: pass\n", "unexpected 1 :"),
    ("for x in y:\n    pass\nelse:\n    pass\n", "loop-else 3 else"),
    ("while x:\n    pass\nelse:\n    pass\n", "loop-else 3 else"),
    ("while x: pass\nelse: pass\n", "loop-else 2 else"),
    ("if a:\n    for x in y: pass\nelse: pass\n", "ok"),
    ("if a:\n    for x in y: pass\n    else: pass\n", "loop-else 3 else"),
    ("for x in y: pass\npass\nelse: pass\n", "unexpected 3 else"),
    ("for x in y: else\n", "unexpected 1 else"),
];

#[test]
fn loops_have_targets_and_no_else(rt: HostRuntime) -> Result<(), Fail> {
    compare(&rt, rt.alloc(), &LOOPS)
}

#[rattlefmt::skip]
const TRIES: [(&str, &str); 19] = [
    ("try: pass\nexcept: pass\n", "ok"),
    ("try:\n    a\nexcept A: b\nexcept (B, C) as d:\n    e\nexcept: f\nelse: g\n", "ok"),
    ("try:\n    pass\nelse:\n    pass\n", "unexpected 3 else"),
    ("try: pass\nx = 1\n", "unexpected 2 x"),
    ("try: pass\n", "unexpected 2 "),
    ("try a: pass\n", "unexpected 1 a"),
    ("try: pass\nexcept:\n    pass\nexcept A:\n    pass\n", "unexpected 4 except"),
    ("try: pass\nexcept A: pass\nelse: pass\nexcept B: pass\n", "unexpected 4 except"),
    ("try: pass\nexcept A: pass\nelse: pass\nelse: pass\n", "unexpected 4 else"),
    ("try: pass\nexcept A, B: pass\n", "unexpected 2 ,"),
    ("try: pass\nexcept as a: pass\n", "unexpected 2 as"),
    ("try: pass\nexcept A as b.c: pass\n", "unexpected 2 ."),
    ("try: pass\nexcept A as 1: pass\n", "unexpected 2 1"),
    ("try: pass\nexcept* A: pass\n", "unexpected 2 *"),
    ("try: pass\nexcept ...: pass\n", "ellipsis 2 ..."),
    ("try:\n    pass\nfinally:\n    pass\n", "finally 3 finally"),
    ("try: pass\nexcept A: pass\nfinally: pass\n", "finally 3 finally"),
    ("try:\n    for x in y: pass\nexcept: pass\nelse: pass\n", "ok"),
    ("try: pass\nexcept A: pass\n    pass\n", "unexpected 3 "),
];

#[test]
fn clauses_follow_try(rt: HostRuntime) -> Result<(), Fail> {
    compare(&rt, rt.alloc(), &TRIES)
}

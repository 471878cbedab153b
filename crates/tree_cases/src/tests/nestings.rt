//! How deep a text may nest.
use super::readings::verdict;
use std::alloc::{AllocError, Global};
use std::test::Fail;

// A text in which a part is repeated.
#[derive(Clone, Copy, Debug)]
struct Repeated<'a> {
    before: &'a str,
    part: &'a str,
    times: usize,
    after: &'a str,
}

fn spelled(alloc: Global, repeated: Repeated) -> Result<String, AllocError> {
    let mut text = String::from_str(alloc, repeated.before)?;
    for _ in 0..repeated.times {
        text.push_str(repeated.part)?;
    }
    text.push_str(repeated.after)?;
    Ok(text)
}

fn row<'a>(before: &'a str, part: &'a str, times: usize, after: &'a str) -> Repeated<'a> {
    Repeated {
        before,
        part,
        times,
        after,
    }
}

// Lists in lists.
fn lists(alloc: Global, times: usize) -> Result<String, AllocError> {
    let mut text = spelled(alloc, row("x = ", "[", times, ""))?;
    for _ in 0..times {
        text.push_str("]")?;
    }
    Ok(text)
}

// Blocks in blocks, with a line in the innermost.
fn blocks(alloc: Global, times: usize, line: &str) -> Result<String, AllocError> {
    let mut text = String::new(alloc);
    for depth in 0..times {
        text.push_str(spelled(alloc, row("", " ", depth, "if a:\n"))?.as_str())?;
    }
    text.push_str(spelled(alloc, row("", " ", times, line))?.as_str())?;
    Ok(text)
}

#[test]
fn lists_and_blocks_nest_64_times(rt: HostRuntime) -> Result<(), Fail> {
    let alloc = rt.alloc();
    let found = [
        verdict(alloc, lists(alloc, 64)?.as_str())?,
        verdict(alloc, lists(alloc, 65)?.as_str())?,
        verdict(alloc, blocks(alloc, 64, "x = 1\n")?.as_str())?,
        verdict(alloc, blocks(alloc, 64, "x.y = 1\n")?.as_str())?,
        verdict(alloc, blocks(alloc, 65, "x = 1\n")?.as_str())?,
    ];
    let expected = [
        "ok",
        "too-deep 1 [",
        "ok",
        "too-deep 65 .",
        "too-deep 65 if",
    ];
    for (verdict, expected) in found.iter().zip(expected) {
        assert_eq!(rt; verdict.as_str(), expected);
    }
    Ok(())
}

#[rattlefmt::skip]
const COUNTS: [(&str, &str, usize, &str, &str); 19] = [
    ("x = ", "-", 64, "1", "ok"),
    ("x = ", "-", 65, "1", "too-deep 1 -"),
    ("x = ", "-", 64, "*", "too-deep 1 *"),
    ("x = ", "-", 64, "lambda", "lambda 1 lambda"),
    ("x = 1 2 ", "-", 65, "1", "unexpected 1 2"),
    ("x = ", "not ", 64, "a", "ok"),
    ("x = ", "not ", 65, "a", "too-deep 1 not"),
    ("x = a", " or a and a", 32, "", "ok"),
    ("x = a", " or a and a", 33, "", "too-deep 1 or"),
    ("x = a", ".b", 65, "", "too-deep 1 ."),
    ("x = ", "a, ", 100, "a", "ok"),
    ("f(", "-1, ", 100, "a=-1)", "ok"),
    ("x = a", "()", 64, "", "ok"),
    ("x = a", "()", 65, "", "too-deep 1 ("),
    ("", "x = 1 + 2\n", 100, "", "ok"),
    ("x = ", "a if b else ", 32, "c", "ok"),
    ("x = ", "a if b else ", 33, "c", "too-deep 1 if"),
    ("x", " += 1", 2, "", "unexpected 1 +="),
    ("", ")", 2, "", "unexpected 1 )"),
];

#[test]
fn operators_count_too(rt: HostRuntime) -> Result<(), Fail> {
    let alloc = rt.alloc();
    for (before, part, times, after, expected) in &COUNTS {
        let text = spelled(alloc, row(before, part, *times, after))?;
        let found = verdict(alloc, text.as_str())?;
        assert_eq!(rt; found.as_str(), *expected, "at {text:?}");
    }
    Ok(())
}

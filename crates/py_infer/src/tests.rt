//! What the program answers where memory is ample.
use crate::run::run;
use crate::status::Status;
use outside_io::{MemoryShelf, MemorySink};
use std::alloc::{AllocError, Global};
use std::process::Abort;
use std::test::Fail;

const USAGE: &str = "usage: py_infer COMMAND [OPTIONS] FILE [NAME=STUB ...]\n";

const UNREAD: &str = "m.py: cannot be read\n";

const TOO_LONG: &str = "m.py: refused: too-long\n";

// A call: its words, one a line; the text of m.py, where the shelf holds it; and which fetches and puts fail.
#[derive(Clone, Copy, Debug)]
struct Call<'a> {
    words: &'a str,
    text: Option<&'a [u8]>,
    fetches: &'a [u32],
    outs: &'a [u32],
    notes: &'a [u32],
}

// `infer m.py` on this text, where nothing fails.
fn infer(text: &str) -> Call<'_> {
    Call {
        words: "infer\nm.py\n",
        text: Some(text.as_bytes()),
        fetches: &[],
        outs: &[],
        notes: &[],
    }
}

fn words_of(alloc: Global, lines: &str) -> Result<Vec<String>, AllocError> {
    let mut words = Vec::new(alloc);
    for line in lines.lines() {
        words.push(String::from_str(alloc, line)?)?;
    }
    Ok(words)
}

fn shelf_of(alloc: Global, call: &Call) -> Result<MemoryShelf, AllocError> {
    let mut shelf = MemoryShelf::new(alloc, call.fetches)?;
    if let Some(text) = call.text {
        shelf.add("m.py", text)?;
    }
    Ok(shelf)
}

// Runs the call over sinks that take 4 bytes at a put, and compares what it answers, and what the two sinks took.
fn compare(
    rt: &(impl Abort + Alloc<A = Global>),
    call: Call,
    status: Status,
    stub: &str,
    report: &str,
) -> Result<(), Fail> {
    let words = words_of(rt.alloc(), call.words)?;
    let mut shelf = shelf_of(rt.alloc(), &call)?;
    let mut out = MemorySink::new(rt.alloc(), 4096, 4, call.outs)?;
    let mut note = MemorySink::new(rt.alloc(), 4096, 4, call.notes)?;
    let ending = run(
        rt.alloc(),
        words.as_slice(),
        &mut shelf,
        &mut out,
        &mut note,
    );
    assert_eq!(rt; ending, status, "at {call:?}");
    assert_eq!(rt; out.bytes(), stub.as_bytes(), "at {call:?}");
    assert_eq!(rt; note.bytes(), report.as_bytes(), "at {call:?}");
    Ok(())
}

#[test]
fn writes_the_stub_of_a_plain_module(rt: HostRuntime) -> Result<(), Fail> {
    let cases = [
        ("", ""),
        ("x = 1\ny = x\n", "x: int\ny: int\n"),
        ("x = 1\nx = \"a\"\n", "x: str\n"),
        (
            "b = 1\na = None\nB = True\n_ = \"\"\nc = B\n",
            "B: bool\n_: str\na: None\nb: int\nc: bool\n",
        ),
        ("x = \"\u{E9}\"\n", "x: str\n"),
        ("\u{E9} = 1\n", "\u{E9}: int\n"),
        ("x = 340282366920938463463374607431768211455\n", "x: int\n"),
        ("x = 1.5\n", "x: float\n"),
        ("x = b\"a\"\ny = x\n", "x: bytes\ny: bytes\n"),
        (
            "\u{FEFF}x = 1\r\n# c\n\n  # d\r\ny = x # e",
            "x: int\ny: int\n",
        ),
        ("x = \\\n1\n", "x: int\n"),
        ("x = 1; y = x;\n", "x: int\ny: int\n"),
        ("(x) = (((1)))\n", "x: int\n"),
        ("x = \"a\" \"b\"\n", "x: str\n"),
    ];
    for (text, stub) in cases {
        compare(&rt, infer(text), Status::Clean, stub, "")?;
    }
    Ok(())
}

#[test]
fn names_the_fault_of_a_text(rt: HostRuntime) -> Result<(), Fail> {
    let cases = [
        ("x = 07", "m.py:1: refused: bad-number\n"),
        ("x = f\"a\"", "m.py:1: refused: prefix\n"),
        ("x = 1 ?", "m.py:1: refused: bad-character\n"),
        (
            "x = 340282366920938463463374607431768211456",
            "m.py:1: refused: wide-int\n",
        ),
        ("x = (1,", "m.py:1: refused: open-bracket\n"),
        ("x = \"a", "m.py:1: refused: open-string\n"),
        ("x = 1\n\u{FB01} = 1\n", "m.py:2: refused: not-nfkc\n"),
        (
            "if True:\n        x = 1\n    y = 2\n",
            "m.py:3: refused: bad-indent\n",
        ),
        (
            "if True:\n    x = 1\n\ty = 2\n",
            "m.py:3: refused: mixed-tabs\n",
        ),
    ];
    for (text, report) in cases {
        compare(&rt, infer(text), Status::Refused, "", report)?;
    }
    Ok(())
}

#[test]
fn refuses_what_is_not_utf8(rt: HostRuntime) -> Result<(), Fail> {
    let call = Call {
        text: Some(b"x = \xFF".as_slice()),
        ..infer("")
    };
    let report = "m.py: refused: not-utf8 at 4\n";
    compare(&rt, call, Status::Refused, "", report)
}

// Each text is refused with the report beside it.
fn refuse_each(rt: &(impl Abort + Alloc<A = Global>), cases: &[(&str, &str)]) -> Result<(), Fail> {
    for (text, report) in cases {
        compare(rt, infer(text), Status::Refused, "", report)?;
    }
    Ok(())
}

#[test]
fn refuses_a_text_without_a_tree(rt: HostRuntime) -> Result<(), Fail> {
    let cases = [
        ("x = )\n", "m.py:1: refused: unexpected-token\n"),
        ("x = 1 2\n", "m.py:1: refused: unexpected-token\n"),
        ("1 = x\n", "m.py:1: refused: unexpected-token\n"),
        ("True = 1\n", "m.py:1: refused: unexpected-token\n"),
        ("x = 1 = 2\n", "m.py:1: refused: unexpected-token\n"),
        ("x = \\\n1 2\n", "m.py:2: refused: unexpected-token\n"),
    ];
    refuse_each(&rt, &cases)
}

#[test]
fn names_a_form_outside_the_profile(rt: HostRuntime) -> Result<(), Fail> {
    let cases = [
        (
            "f = lambda x: x\n",
            "m.py:1: refused: out-of-profile lambda\n",
        ),
        ("x = 1j\n", "m.py:1: refused: out-of-profile complex\n"),
        (
            "x = 1\n\nx = 1 < 2 < 3\n",
            "m.py:3: refused: out-of-profile chained-compare\n",
        ),
        (
            "class A:\n    def __len__(self): ...\n",
            "m.py:2: refused: out-of-profile special-method\n",
        ),
    ];
    refuse_each(&rt, &cases)
}

#[test]
fn refuses_a_text_that_is_nested_too_deep(rt: HostRuntime) -> Result<(), Fail> {
    let mut text = String::from_str(rt.alloc(), "x = ")?;
    text.push_str("[".repeat(rt.alloc(), 65)?.as_str())?;
    text.push_str("]".repeat(rt.alloc(), 65)?.as_str())?;
    let report = "m.py:1: refused: too-deep\n";
    compare(&rt, infer(text.as_str()), Status::Refused, "", report)
}

#[test]
fn names_the_first_broken_rule(rt: HostRuntime) -> Result<(), Fail> {
    let cases = [
        ("class A(B):\n    pass\n", "m.py:1: refused: base-unknown\n"),
        (
            "def f(a, a):\n    pass\n",
            "m.py:1: refused: duplicate-param\n",
        ),
        (
            "def f():\n    return super().g()\n",
            "m.py:2: refused: super-use\n",
        ),
        ("print = 1\n", "m.py:1: refused: builtin-bound\n"),
        ("List = 1\n", "m.py:1: refused: builtin-bound\n"),
        ("break\n", "m.py:1: refused: break-outside-loop\n"),
        ("x = 1\nreturn\n", "m.py:2: refused: return-outside\n"),
    ];
    refuse_each(&rt, &cases)
}

#[test]
fn refuses_forms_that_are_not_built(rt: HostRuntime) -> Result<(), Fail> {
    let first = "m.py:1: refused: out-of-profile later\n";
    let cases = [
        ("if True:\n    x = 1\n", first),
        ("x\n", first),
        ("pass\n", first),
        ("x = y = 1\n", first),
        ("x: int = 1\n", first),
        ("x += 1\n", first),
        ("import a\n", first),
    ];
    refuse_each(&rt, &cases)
}

#[test]
fn refuses_a_read_of_what_is_not_assigned(rt: HostRuntime) -> Result<(), Fail> {
    let cases = [
        ("x = y\n", "m.py:1: refused: out-of-profile later\n"),
        ("x = x\n", "m.py:1: refused: out-of-profile later\n"),
        (
            "x = 1\ny = z\nz = 1\n",
            "m.py:2: refused: out-of-profile later\n",
        ),
        ("x = (\n  y)\n", "m.py:2: refused: out-of-profile later\n"),
    ];
    refuse_each(&rt, &cases)
}

#[test]
fn tells_the_least_line_of_what_is_not_built(rt: HostRuntime) -> Result<(), Fail> {
    let second = "m.py:2: refused: out-of-profile later\n";
    let cases = [
        ("x = 1\nif x:\n    y = 2\n", second),
        ("x = \"a\"\n\"b\"\n", second),
        ("x = (\n  1,\n  2)\n", second),
        ("x = 1\ny = -x\nz = -x\n", second),
    ];
    refuse_each(&rt, &cases)
}

#[test]
fn refuses_more_than_the_most_bytes(rt: HostRuntime) -> Result<(), Fail> {
    let mut text = "\n".repeat(rt.alloc(), 262144)?;
    compare(&rt, infer(text.as_str()), Status::Clean, "", "")?;
    text.push('\n')?;
    compare(&rt, infer(text.as_str()), Status::Refused, "", TOO_LONG)
}

#[test]
fn accepts_infer_and_a_file_alone(rt: HostRuntime) -> Result<(), Fail> {
    let unaccepted = [
        "",
        "infer\n",
        "infer\n\n",
        "infer\n-x\n",
        "infer\nm.py\nn.py\n",
        "gen\n2\n",
        "infer\n--\nm.py\n",
        "Infer\nm.py\n",
        "infer\n--depth\n2\nm.py\n",
    ];
    for words in unaccepted {
        let call = Call {
            words,
            ..infer("x = 1\n")
        };
        compare(&rt, call, Status::Usage, "", USAGE)?;
    }
    let dash = Call {
        words: "infer\n-\n",
        ..infer("x = 1\n")
    };
    compare(&rt, dash, Status::ReadFault, "", "-: cannot be read\n")
}

#[test]
fn reports_a_file_that_cannot_be_read(rt: HostRuntime) -> Result<(), Fail> {
    let missing = Call {
        text: None,
        ..infer("")
    };
    compare(&rt, missing, Status::ReadFault, "", UNREAD)?;
    let failing = Call {
        fetches: &[1],
        ..infer("x = 1\n")
    };
    compare(&rt, failing, Status::ReadFault, "", UNREAD)
}

#[test]
fn stops_at_a_put_that_fails(rt: HostRuntime) -> Result<(), Fail> {
    let short_stub = Call {
        outs: &[2],
        ..infer("x = 1\ny = x\n")
    };
    compare(&rt, short_stub, Status::WriteFault, "x: i", "")?;
    let short_report = Call {
        notes: &[3],
        ..infer("x\n")
    };
    compare(&rt, short_report, Status::WriteFault, "", "m.py:1: ")
}

#[test]
fn numbers_the_endings(rt: HostRuntime) {
    let codes = [
        Status::Clean.code(),
        Status::Findings.code(),
        Status::Usage.code(),
        Status::Refused.code(),
        Status::ReadFault.code(),
        Status::WriteFault.code(),
        Status::TooLarge.code(),
        Status::Memory.code(),
    ];
    assert_eq!(rt; codes, [0, 1, 2, 3, 4, 5, 6, 7]);
}

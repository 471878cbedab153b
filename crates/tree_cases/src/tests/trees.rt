//! The trees of single statements.
use super::printer::printed;
use super::readings::parsed;
use std::alloc::Global;
use std::process::Abort;
use std::test::Fail;

/// Compares the tree of each text with the one beside it.
pub(crate) fn compare(rt: &impl Abort, alloc: Global, rows: &[(&str, &str)]) -> Result<(), Fail> {
    for (text, expected) in rows {
        let module = parsed(alloc, text)??;
        let found = printed(alloc, &module)?;
        assert_eq!(rt; found.as_str(), *expected, "at {text:?}");
    }
    Ok(())
}

#[rattlefmt::skip]
const GROUPS: [(&str, &str); 23] = [
    ("a - b - c", "1 Expression Sub(Sub(a#0 b#1)#2 c#3)#4\n"),
    ("a ** b ** c", "1 Expression Pow(a#0 Pow(b#1 c#2)#3)#4\n"),
    ("-a ** b", "1 Expression Minus(Pow(a#0 b#1)#2)#3\n"),
    ("a ** -b", "1 Expression Pow(a#0 Minus(b#1)#2)#3\n"),
    ("not a < b", "1 Expression Not(Less(a#0 b#1)#2)#3\n"),
    ("not a and b", "1 Expression And(Not(a#0)#1 b#2)#3\n"),
    ("a or b or c", "1 Expression Or(Or(a#0 b#1)#2 c#3)#4\n"),
    ("a and b and c", "1 Expression And(And(a#0 b#1)#2 c#3)#4\n"),
    ("a or b and c", "1 Expression Or(a#0 And(b#1 c#2)#3)#4\n"),
    ("a + b * c << d", "1 Expression ShiftLeft(Add(a#0 Mul(b#1 c#2)#3)#4 d#5)#6\n"),
    ("a * b + c", "1 Expression Add(Mul(a#0 b#1)#2 c#3)#4\n"),
    ("a & b ^ c | d", "1 Expression BitOr(BitXor(BitAnd(a#0 b#1)#2 c#3)#4 d#5)#6\n"),
    ("a | b == c >> d", "1 Expression Equal(BitOr(a#0 b#1)#2 ShiftRight(c#3 d#4)#5)#6\n"),
    ("a if b else c if d else e", "1 Expression Choice(a#0 b#1 Choice(c#2 d#3 e#4)#5)#6\n"),
    ("a * (b - c)", "1 Expression Mul(a#0 Sub(b#1 c#2)#3)#4\n"),
    ("a < b, a > b", "1 Expression Tuple(Less(a#0 b#1)#2 Greater(a#3 b#4)#5)#6\n"),
    ("a <= b, a >= b", "1 Expression Tuple(LessEq(a#0 b#1)#2 GreaterEq(a#3 b#4)#5)#6\n"),
    ("a == b, a != b", "1 Expression Tuple(Equal(a#0 b#1)#2 NotEqual(a#3 b#4)#5)#6\n"),
    ("a is b, a is not b", "1 Expression Tuple(Is(a#0 b#1)#2 IsNot(a#3 b#4)#5)#6\n"),
    ("a in b, a not in b", "1 Expression Tuple(Within(a#0 b#1)#2 NotWithin(a#3 b#4)#5)#6\n"),
    ("+a, ~b", "1 Expression Tuple(Plus(a#0)#1 Invert(b#2)#3)#4\n"),
    ("1, 0x10, 1.5, '' '', '' 'a', b''", "1 Expression Tuple(1#0 16#1 float#2 str0#3 str#4 bytes0#5)#6\n"),
    ("b'' b'a', None, True, False", "1 Expression Tuple(bytes#0 None#1 True#2 False#3)#4\n"),
];

#[test]
fn operators_group_operands(rt: HostRuntime) -> Result<(), Fail> {
    compare(&rt, rt.alloc(), &GROUPS)
}

#[rattlefmt::skip]
const PRIMARIES: [(&str, &str); 22] = [
    ("(a,)", "1 Expression Tuple(a#0)#1\n"),
    ("a,", "1 Expression Tuple(a#0)#1\n"),
    ("((a))", "1 Expression a#0\n"),
    ("()", "1 Expression Tuple()#0\n"),
    ("[(a, b), c]", "1 Expression List(Tuple(a#0 b#1)#2 c#3)#4\n"),
    ("{a: b, c: d}", "1 Expression Dict(a#0:b#1 c#2:d#3)#4\n"),
    ("a.b[c](d, e=f)", "1 Expression Call(Item(.b(a#0)#1 c#2)#3 d#4 e=f#5)#6\n"),
    ("a[b, c]", "1 Expression Item(a#0 Tuple(b#1 c#2)#3)#4\n"),
    ("a[b,]", "1 Expression Item(a#0 Tuple(b#1)#2)#3\n"),
    ("a[b:c:d]", "1 Expression Slice(a#0 b#1 c#2 d#3)#4\n"),
    ("a[:b]", "1 Expression Slice(a#0 _ b#1 _)#2\n"),
    ("a[::b]", "1 Expression Slice(a#0 _ _ b#1)#2\n"),
    ("a[b::]", "1 Expression Slice(a#0 b#1 _ _)#2\n"),
    ("super().a.b", "1 Expression .b(super.a#0)#1\n"),
    ("(\na, b)", "1 Expression Tuple(a#0@2 b#1@2)#2@2\n"),
    ("(\na) + b", "1 Expression Add(a#0@2 b#1@2)#2\n"),
    ("[\na]", "1 Expression List(a#0@2)#1\n"),
    ("f(\na)(\nb)", "1 Expression Call(Call(f#0 a#1@2)#2 b#3@3)#4\n"),
    ("x = (\n[\n])", "1 Assign x#0 = List()#1@2\n"),
    ("-(\na\n) ** b", "1 Expression Minus(Pow(a#0@2 b#1@3)#2)#3\n"),
    ("a[\nb,\nc]", "1 Expression Item(a#0 Tuple(b#1@2 c#2@3)#3@2)#4\n"),
    ("\n\n{\n'a': b}", "3 Expression Dict(str#0@4:b#1@4)#2\n"),
];

#[test]
fn nodes_begin_with_their_first_token(rt: HostRuntime) -> Result<(), Fail> {
    compare(&rt, rt.alloc(), &PRIMARIES)
}

#[rattlefmt::skip]
const STATEMENTS: [(&str, &str); 16] = [
    ("x, = y = 1, 2", "1 Assign Tuple(x#0)#1 = y#2 = Tuple(1#3 2#4)#5\n"),
    ("[a, (b)] = c", "1 Assign List(a#0 b#1)#2 = c#3\n"),
    ("(x) += 1", "1 Augment x#0 Add 1#1\n"),
    ("x -= 1; x *= 1", "1 Augment x#0 Sub 1#1\n1 Augment x#2 Mul 1#3\n"),
    ("x /= 1; x //= 1", "1 Augment x#0 Div 1#1\n1 Augment x#2 FloorDiv 1#3\n"),
    ("x %= 1; x @= 1", "1 Augment x#0 Mod 1#1\n1 Augment x#2 MatMul 1#3\n"),
    ("x &= 1; x |= 1", "1 Augment x#0 BitAnd 1#1\n1 Augment x#2 BitOr 1#3\n"),
    ("x ^= 1; x **= 1", "1 Augment x#0 BitXor 1#1\n1 Augment x#2 Pow 1#3\n"),
    ("x >>= 1; x <<= 1", "1 Augment x#0 ShiftRight 1#1\n1 Augment x#2 ShiftLeft 1#3\n"),
    ("x: a[b] = y", "1 Annotated x#0 y#1\n"),
    ("x.y: int", "1 Annotated .y(x#0)#1\n"),
    ("for a, in b: pass", "1 For Tuple(a#0)#1 in b#2\n  1 Pass\n"),
    ("for (a, b) in c,: pass", "1 For Tuple(a#0 b#1)#2 in Tuple(c#3)#4\n  1 Pass\n"),
    ("if a: b\nelif c: d", "1 If\nArm a#0\n  1 Expression b#1\nArm c#2@2\n  2 Expression d#3\n"),
    ("if a: b\nelse:\n  if c: d", "1 If\nArm a#0\n  1 Expression b#1\nElse\n  3 If\n  Arm c#2\n    3 Expression d#3\n"),
    ("def f(a=-1, b=1.5, c='', d=-2.5): x", "1 Def 0 f a=-1 b=float c=str0 d=float\n  1 Expression x#0\n"),
];

#[test]
fn statements_keep_their_parts(rt: HostRuntime) -> Result<(), Fail> {
    compare(&rt, rt.alloc(), &STATEMENTS)
}

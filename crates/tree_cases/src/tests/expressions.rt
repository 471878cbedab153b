//! Expressions.
use super::readings::compare;
use std::test::Fail;

#[rattlefmt::skip]
const OPERATIONS: [(&str, &str); 25] = [
    ("a if b else c if d else e\n", "ok"),
    ("a or b and not c\n", "ok"),
    ("a | b ^ c & d << e >> f + g - h * i / j // k % l @ m ** n\n", "ok"),
    ("+-~a ** -b\n", "ok"),
    ("a is not b\n", "ok"),
    ("not a not in b\n", "ok"),
    ("x = a if b\n", "unexpected 1 \n"),
    ("x = a else b\n", "unexpected 1 else"),
    ("x = a if b else\n", "unexpected 1 \n"),
    ("a not b\n", "unexpected 1 b"),
    ("a is is b\n", "unexpected 1 is"),
    ("a < < b\n", "unexpected 1 <"),
    ("a < not b\n", "unexpected 1 not"),
    ("a + not b\n", "unexpected 1 not"),
    ("a is not not b\n", "unexpected 1 not"),
    ("a ** ** b\n", "unexpected 1 **"),
    ("/ a\n", "unexpected 1 /"),
    ("a < b < c\n", "chained-compare 1 <"),
    ("a < b not in c\n", "chained-compare 1 not"),
    ("a < b not c\n", "chained-compare 1 not"),
    ("a in b is c\n", "chained-compare 1 is"),
    ("x = a + b == -c ** d != e\n", "chained-compare 1 !="),
    ("f(a < b and c < d >= e)\n", "chained-compare 1 >="),
    ("(a < b) < c\n", "ok"),
    ("for x in a < b in c: pass\n", "chained-compare 1 in"),
];

#[test]
fn operators_stand_between_operands(rt: HostRuntime) -> Result<(), Fail> {
    compare(&rt, rt.alloc(), &OPERATIONS)
}

#[rattlefmt::skip]
const PRIMARIES: [(&str, &str); 24] = [
    ("a.b(c)[d].e()[f, g,]\n", "ok"),
    ("\"a\" 'b' .c\n", "ok"),
    ("b'a' b'b'\n", "ok"),
    ("'a' b'b'\n", "unexpected 1 b'b'"),
    ("1 .real; 1.5 .real; None.x; True[0]\n", "ok"),
    ("a.1\n", "unexpected 1 .1"),
    ("a.None\n", "unexpected 1 None"),
    ("a.\n", "unexpected 1 \n"),
    ("x[1:2]; x[:]; x[::]; x[a:b:c]; x[:, ]\n", "unexpected 1 ,"),
    ("x[a if b else c:]\n", "ok"),
    ("x[]\n", "unexpected 1 ]"),
    ("x[a:b:c:d]\n", "unexpected 1 :"),
    ("x[a, b:c]\n", "unexpected 1 :"),
    ("x[a:b, c]\n", "unexpected 1 ,"),
    ("x[a b]\n", "unexpected 1 b"),
    ("a.__dict__\n", "special-attribute 1 __dict__"),
    ("a.__init__.__x.x__\n", "ok"),
    ("a.__\n", "special-attribute 1 __"),
    ("__a__.b + ___\n", "ok"),
    ("x.super; super_\n", "ok"),
    ("super().a; super().__init__(b)\n", "ok"),
    ("(super().a)[0]\n", "ok"),
    ("x = 'a'f\n", "unexpected 1 f"),
    ("-\n", "unexpected 1 \n"),
];

#[test]
fn primaries_are_atoms_and_what_follows(rt: HostRuntime) -> Result<(), Fail> {
    compare(&rt, rt.alloc(), &PRIMARIES)
}

#[rattlefmt::skip]
const CALLS: [(&str, &str); 24] = [
    ("f()\n", "ok"),
    ("f(a, b,)\n", "ok"),
    ("f(a, b=c, d=e,)\n", "ok"),
    ("f(a=1, a=2)\n", "ok"),
    ("f(super=1, b=super().c)\n", "ok"),
    ("f(a if b else c, (d, e))\n", "ok"),
    ("f(,)\n", "unexpected 1 ,"),
    ("f(a,,)\n", "unexpected 1 ,"),
    ("f(a b)\n", "unexpected 1 b"),
    ("f(a=1, b)\n", "unexpected 1 )"),
    ("f(a=1, 2)\n", "unexpected 1 2"),
    ("f(a=1, b.c)\n", "unexpected 1 ."),
    ("f((a)=1)\n", "unexpected 1 ="),
    ("f(a.b=1)\n", "unexpected 1 ="),
    ("f(a==1)\n", "ok"),
    ("f(a=)\n", "unexpected 1 )"),
    ("f(a=b=c)\n", "unexpected 1 ="),
    ("f(a: b)\n", "unexpected 1 :"),
    ("f(None=1)\n", "unexpected 1 ="),
    ("f(a=1, None)\n", "unexpected 1 None"),
    ("f(a=1, ...)\n", "unexpected 1 ..."),
    ("f(x for x in y)\n", "comprehension 1 for"),
    ("f(a=1, b for b in c)\n", "comprehension 1 for"),
    ("f(a := 1)\n", "walrus 1 :="),
];

#[test]
fn arguments_with_keywords_come_last(rt: HostRuntime) -> Result<(), Fail> {
    compare(&rt, rt.alloc(), &CALLS)
}

#[rattlefmt::skip]
const DISPLAYS: [(&str, &str); 23] = [
    ("(); (a); (a,); (a, b)\n", "ok"),
    ("[]; [a]; [a,]; [a, b]\n", "ok"),
    ("{}; {a: b}; {a: b, c: d,}\n", "ok"),
    ("(,)\n", "unexpected 1 ,"),
    ("[,]\n", "unexpected 1 ,"),
    ("[a,,]\n", "unexpected 1 ,"),
    ("{,}\n", "unexpected 1 ,"),
    ("{a: b c: d}\n", "unexpected 1 c"),
    ("{a: b,, c: d}\n", "unexpected 1 ,"),
    ("{a:}\n", "unexpected 1 }"),
    ("{a: b: c}\n", "unexpected 1 :"),
    ("{1, 2}\n", "set-display 1 ,"),
    ("{1}\n", "set-display 1 }"),
    ("{a < b}\n", "set-display 1 }"),
    ("{1: 2, 3}\n", "unexpected 1 }"),
    ("{1 2}\n", "unexpected 1 2"),
    ("(y for y in z)\n", "comprehension 1 for"),
    ("[y for y in z]\n", "comprehension 1 for"),
    ("{y: z for y in z}\n", "comprehension 1 for"),
    ("{y for y in z}\n", "comprehension 1 for"),
    ("(for\n)\n", "comprehension 1 for"),
    ("x = for\n", "unexpected 1 for"),
    ("[(a)(b)][c] for d in e\n", "unexpected 1 for"),
];

#[test]
fn brackets_hold_elements(rt: HostRuntime) -> Result<(), Fail> {
    compare(&rt, rt.alloc(), &DISPLAYS)
}

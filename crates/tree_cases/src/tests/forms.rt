//! Forms that may stand at many places.
use super::readings::compare;
use std::test::Fail;

#[rattlefmt::skip]
const KEYWORDS: [(&str, &str); 22] = [
    ("x = lambda: 1\n", "lambda 1 lambda"),
    ("f(lambda)\n", "lambda 1 lambda"),
    ("x lambda\n", "lambda 1 lambda"),
    ("if a:\nlambda\n", "lambda 2 lambda"),
    ("yield x\n", "yield 1 yield"),
    ("x = yield\n", "yield 1 yield"),
    ("async def f(): pass\n", "async 1 async"),
    ("await x\n", "await 1 await"),
    ("x = 1 + await y\n", "await 1 await"),
    ("with a: pass\n", "with 1 with"),
    ("finally: pass\n", "finally 1 finally"),
    ("del x\n", "del 1 del"),
    ("def f():\n    nonlocal x\n", "nonlocal 2 nonlocal"),
    ("global x\n", "global 1 global"),
    ("x = (y := 1)\n", "walrus 1 :="),
    ("y := 1\n", "walrus 1 :="),
    ("x = 1j\n", "complex 1 1j"),
    ("f(a 2.5J)\n", "complex 1 2.5J"),
    ("a @ b; @c\n", "decorator 1 @"),
    ("if a: @b\n", "decorator 1 @"),
    ("x = @b\n", "unexpected 1 @"),
    ("if a:\n@b\n", "unexpected 2 @"),
];

#[test]
fn keywords_name_their_forms(rt: HostRuntime) -> Result<(), Fail> {
    compare(&rt, rt.alloc(), &KEYWORDS)
}

#[rattlefmt::skip]
const STARS: [(&str, &str); 25] = [
    ("f(*a)\n", "star-arg 1 *"),
    ("f(**a)\n", "star-arg 1 **"),
    ("f(a, *b)\n", "star-arg 1 *"),
    ("f(a=1, **b)\n", "star-arg 1 **"),
    ("[*a]\n", "star-arg 1 *"),
    ("[a, *b]\n", "star-arg 1 *"),
    ("(a, *b)\n", "star-arg 1 *"),
    ("{*a}\n", "star-arg 1 *"),
    ("{**a}\n", "star-arg 1 **"),
    ("{a: b, **c}\n", "star-arg 1 **"),
    ("*a, b = c\n", "star-arg 1 *"),
    ("a, *b = c\n", "star-arg 1 *"),
    ("x = *a\n", "star-arg 1 *"),
    ("return *a\n", "star-arg 1 *"),
    ("x[*a]\n", "star-arg 1 *"),
    ("for *a in b: pass\n", "star-arg 1 *"),
    ("for a, *b in c: pass\n", "star-arg 1 *"),
    ("for a in *b: pass\n", "star-arg 1 *"),
    ("f(a=*b)\n", "unexpected 1 *"),
    ("{a: *b}\n", "unexpected 1 *"),
    ("if *a: pass\n", "unexpected 1 *"),
    ("assert a, *b\n", "unexpected 1 *"),
    ("raise *a\n", "unexpected 1 *"),
    ("x[a:*b]\n", "unexpected 1 *"),
    ("x = a + *b\n", "unexpected 1 *"),
];

#[test]
fn stars_begin_no_element(rt: HostRuntime) -> Result<(), Fail> {
    compare(&rt, rt.alloc(), &STARS)
}

#[rattlefmt::skip]
const ELLIPSES: [(&str, &str); 25] = [
    ("x = ...\n", "ellipsis 1 ..."),
    ("x: int = ...\n", "ellipsis 1 ..."),
    ("x = a, ...\n", "ellipsis 1 ..."),
    ("return ...\n", "ellipsis 1 ..."),
    ("f(...)\n", "ellipsis 1 ..."),
    ("f(a=...)\n", "ellipsis 1 ..."),
    ("x[...]\n", "ellipsis 1 ..."),
    ("x[a:...]\n", "ellipsis 1 ..."),
    ("[a, ...]\n", "ellipsis 1 ..."),
    ("(...)\n", "ellipsis 1 ..."),
    ("{...: 1}\n", "ellipsis 1 ..."),
    ("{1: ...}\n", "ellipsis 1 ..."),
    ("a if b else ...\n", "ellipsis 1 ..."),
    ("raise a from ...\n", "ellipsis 1 ..."),
    ("for x in ...: pass\n", "ellipsis 1 ..."),
    ("if ...: pass\n", "ellipsis 1 ..."),
    ("class A: x = ...\n", "ellipsis 1 ..."),
    ("x = 1 + ...\n", "unexpected 1 ..."),
    ("not ...\n", "unexpected 1 ..."),
    ("a and ...\n", "unexpected 1 ..."),
    ("a if ... else b\n", "unexpected 1 ..."),
    ("for ... in x: pass\n", "unexpected 1 ..."),
    ("... + 1\n", "unexpected 1 +"),
    ("...,\n", "unexpected 1 ,"),
    ("x...\n", "unexpected 1 ..."),
];

#[test]
fn an_ellipsis_is_no_test(rt: HostRuntime) -> Result<(), Fail> {
    compare(&rt, rt.alloc(), &ELLIPSES)
}

#[rattlefmt::skip]
const SUPERS: [(&str, &str); 17] = [
    ("super = 1\n", "super-form 1 ="),
    ("super: int\n", "super-form 1 :"),
    ("for super in x: pass\n", "super-form 1 in"),
    ("x = super\n", "super-form 1 \n"),
    ("x = super()\n", "super-form 1 \n"),
    ("x = super(A)\n", "super-form 1 A"),
    ("super(*a)\n", "super-form 1 *"),
    ("super(...)\n", "super-form 1 ..."),
    ("super().1\n", "super-form 1 .1"),
    ("super().None\n", "super-form 1 None"),
    ("super()[0]\n", "super-form 1 ["),
    ("f(super)\n", "super-form 1 )"),
    ("super lambda\n", "lambda 1 lambda"),
    ("super().a = 1\n", "unexpected 1 ="),
    ("super().a += 1\n", "unexpected 1 +="),
    ("super().a: int\n", "unexpected 1 :"),
    ("super().a.b = 1\n", "ok"),
];

#[test]
fn super_has_one_form(rt: HostRuntime) -> Result<(), Fail> {
    compare(&rt, rt.alloc(), &SUPERS)
}

//! Functions, and where they stand.
use super::readings::compare;
use std::test::Fail;

#[rattlefmt::skip]
const PARAMS: [(&str, &str); 25] = [
    ("def f(): pass\n", "ok"),
    ("def f(a, b: int, c=1, d: str = 'a' 'b',) -> None:\n    return\n", "ok"),
    ("def super(super): pass\n", "ok"),
    ("def __f__(__a, __b__): pass\n", "ok"),
    ("def f(a=-1, b=-1.5, c=b'', d=None, e=True, g=False): pass\n", "ok"),
    ("def f(a=1, b): pass\n", "unexpected 1 )"),
    ("def f(a=1, b: int): pass\n", "unexpected 1 )"),
    ("def f(a=1, b, c=2): pass\n", "unexpected 1 ,"),
    ("def f(,): pass\n", "unexpected 1 ,"),
    ("def f(a,,): pass\n", "unexpected 1 ,"),
    ("def f(a b): pass\n", "unexpected 1 b"),
    ("def f(1): pass\n", "unexpected 1 1"),
    ("def f(a: ): pass\n", "unexpected 1 )"),
    ("def f(...): pass\n", "unexpected 1 ..."),
    ("def f((a, b)): pass\n", "unexpected 1 ("),
    ("def f: pass\n", "unexpected 1 :"),
    ("def (a): pass\n", "unexpected 1 ("),
    ("def f() -> : pass\n", "unexpected 1 :"),
    ("def f() -> a.b | c[d]: pass\n", "ok"),
    ("def f()\n    pass\n", "unexpected 1 \n"),
    ("def f(a)(b): pass\n", "unexpected 1 ("),
    ("def f(a for a in b): pass\n", "comprehension 1 for"),
    ("def f(a := 1): pass\n", "walrus 1 :="),
    ("def f(a): x = 1; return a\n", "ok"),
    ("def f():\n", "unexpected 2 "),
];

#[test]
fn params_may_have_defaults(rt: HostRuntime) -> Result<(), Fail> {
    compare(&rt, rt.alloc(), &PARAMS)
}

#[rattlefmt::skip]
const DEFAULTS: [(&str, &str); 25] = [
    ("def f(a=b): pass\n", "default 1 b"),
    ("def f(a=()): pass\n", "default 1 ("),
    ("def f(a=[]): pass\n", "default 1 ["),
    ("def f(a={}): pass\n", "default 1 {"),
    ("def f(a=+1): pass\n", "default 1 +"),
    ("def f(a=~1): pass\n", "default 1 ~"),
    ("def f(a=not b): pass\n", "default 1 not"),
    ("def f(a=...): pass\n", "default 1 ..."),
    ("def f(a=super().b): pass\n", "default 1 super"),
    ("def f(a: int = b): pass\n", "default 1 b"),
    ("def f(a=): pass\n", "unexpected 1 )"),
    ("def f(a=,): pass\n", "unexpected 1 ,"),
    ("def f(a=-None): pass\n", "unexpected 1 None"),
    ("def f(a=--1): pass\n", "unexpected 1 -"),
    ("def f(a=-b): pass\n", "unexpected 1 b"),
    ("def f(a=1+2): pass\n", "unexpected 1 +"),
    ("def f(a=lambda: 1): pass\n", "lambda 1 lambda"),
    ("def f(a=1j): pass\n", "complex 1 1j"),
    ("def f(*a): pass\n", "star-param 1 *"),
    ("def f(**a): pass\n", "star-param 1 **"),
    ("def f(a, /): pass\n", "star-param 1 /"),
    ("def f(a=2*3): pass\n", "star-param 1 *"),
    ("def f(a: x*y): pass\n", "star-param 1 *"),
    ("def f(a: x[*y]): pass\n", "star-param 1 *"),
    ("def f(a) * b: pass\n", "unexpected 1 *"),
];

#[test]
fn defaults_are_literals(rt: HostRuntime) -> Result<(), Fail> {
    compare(&rt, rt.alloc(), &DEFAULTS)
}

#[rattlefmt::skip]
const PLACES: [(&str, &str); 15] = [
    ("def f():\n    def g(): pass\n", "nested-function 2 def"),
    ("if a:\n    def f(): pass\n", "nested-function 2 def"),
    ("if a: def f(): pass\n", "nested-function 1 def"),
    ("for x in y:\n    pass\n    class A: pass\n", "nested-class 3 class"),
    ("def f():\n    class A: pass\n", "nested-class 2 class"),
    ("class A:\n    class B: pass\n", "nested-class 2 class"),
    ("class A:\n    def f(self): pass\n    class B: pass\n", "nested-class 3 class"),
    ("class A: def f(self): pass\n", "nested-function 1 def"),
    ("class A:\n    def f(self):\n        def g(): pass\n", "nested-function 3 def"),
    ("x = def\n", "nested-function 1 def"),
    ("pass; class A: pass\n", "nested-class 1 class"),
    ("if a:\ndef f(): pass\n", "nested-function 2 def"),
    ("@a\ndef f(): pass\n", "decorator 1 @"),
    ("class A:\n    @a\n    def f(self): pass\n", "decorator 2 @"),
    ("def f(): pass\ndef f(): pass\nclass f: pass\n", "ok"),
];

#[test]
fn definitions_stand_at_the_top(rt: HostRuntime) -> Result<(), Fail> {
    compare(&rt, rt.alloc(), &PLACES)
}

//! Classes.
use super::readings::compare;
use std::test::Fail;

#[rattlefmt::skip]
const HEADERS: [(&str, &str); 22] = [
    ("class A: pass\n", "ok"),
    ("class A(): ...\n", "ok"),
    ("class A(B): 'a' 'b'\n", "ok"),
    ("class A: x = 1, 2\n", "ok"),
    ("class A: x: int\n", "ok"),
    ("class super(super): pass\n", "ok"),
    ("class __A(__B): pass\n", "ok"),
    ("class __A__: pass\n", "ok"),
    ("class A(B, C): pass\n", "multiple-bases 1 ,"),
    ("class A(B,): pass\n", "multiple-bases 1 ,"),
    ("class A(,): pass\n", "multiple-bases 1 ,"),
    ("class A(b=C): pass\n", "class-keyword 1 ="),
    ("class A(=C): pass\n", "class-keyword 1 ="),
    ("class A(b.C): pass\n", "unexpected 1 ."),
    ("class A(*B): pass\n", "unexpected 1 *"),
    ("class A(1): pass\n", "unexpected 1 1"),
    ("class A, B: pass\n", "unexpected 1 ,"),
    ("class = 1\n", "unexpected 1 ="),
    ("class A\n", "unexpected 1 \n"),
    ("class A:\nx = 1\n", "unexpected 2 x"),
    ("class A:\n", "unexpected 2 "),
    ("class A: pass\n    x = 1\n", "unexpected 2 "),
];

#[test]
fn classes_have_one_base(rt: HostRuntime) -> Result<(), Fail> {
    compare(&rt, rt.alloc(), &HEADERS)
}

#[rattlefmt::skip]
const MEMBERS: [(&str, &str); 25] = [
    ("class A:\n    'doc'\n    pass\n    ...\n    x = 1\n    y: int = 2\n    def f(self): pass\n    z: str\n", "ok"),
    ("class A:\n    super = 1\n    __init__ = 2\n    __init__: int\n", "ok"),
    ("class A:\n    print('a')\n", "unexpected 2 ("),
    ("class A:\n    x.y = 1\n", "unexpected 2 ."),
    ("class A:\n    x, y = 1, 2\n", "unexpected 2 ,"),
    ("class A:\n    x += 1\n", "unexpected 2 +="),
    ("class A:\n    x = y = 1\n", "unexpected 2 ="),
    ("class A:\n    'a' + b\n", "unexpected 2 +"),
    ("class A:\n    x = 1; y = 2\n", "unexpected 2 ;"),
    ("class A: pass;\n", "unexpected 1 ;"),
    ("class A:\n    x\n", "unexpected 2 \n"),
    ("class A:\n    )\n", "unexpected 2 )"),
    ("class A:\n    else: pass\n", "unexpected 2 else"),
    ("class A:\n    pass\n        pass\n", "unexpected 3 "),
    ("class A:\n    if x: pass\n", "class-body 2 if"),
    ("class A:\n    for x in y: pass\n", "class-body 2 for"),
    ("class A:\n    1\n", "class-body 2 1"),
    ("class A:\n    (x) = 1\n", "class-body 2 ("),
    ("class A:\n    return\n", "class-body 2 return"),
    ("class A: import a\n", "class-body 1 import"),
    ("class A:\n    not x\n", "class-body 2 not"),
    ("class A:\n    None\n", "class-body 2 None"),
    ("class A:\n    b'a'\n", "class-body 2 b'a'"),
    ("class A:\n    *a, b = c\n", "star-arg 2 *"),
    ("class A:\n    global x\n", "global 2 global"),
];

#[test]
fn class_bodies_hold_members(rt: HostRuntime) -> Result<(), Fail> {
    compare(&rt, rt.alloc(), &MEMBERS)
}

#[rattlefmt::skip]
const NAMES: [(&str, &str); 22] = [
    ("class A:\n    __slots__ = ()\n", "special-method 2 __slots__"),
    ("class A:\n    __x__: int\n", "special-method 2 __x__"),
    ("class A: ___ = 1\n", "special-method 1 ___"),
    ("class A:\n    def __str__(self): pass\n", "special-method 2 __str__"),
    ("class A:\n    def __init__(self): pass\n", "ok"),
    ("class A:\n    def __len__\n", "special-method 2 __len__"),
    ("class A:\n    __x = 1\n", "private-name 2 __x"),
    ("class A:\n    __x()\n", "private-name 2 __x"),
    ("class A: x = __y\n", "private-name 1 __y"),
    ("class A:\n    def __f(self): pass\n", "private-name 2 __f"),
    ("class A:\n    def f(self, __a): pass\n", "private-name 2 __a"),
    ("class A:\n    def f(self, a=__b): pass\n", "private-name 2 __b"),
    ("class A:\n    def f(self):\n        self.__x = 1\n", "private-name 3 __x"),
    ("class A:\n    def f(self):\n        g(__x=1)\n", "private-name 3 __x"),
    ("class A:\n    def f(self):\n        import a as __b\n", "private-name 3 __b"),
    ("class A:\n    def f(self) -> __B: pass\n", "private-name 2 __B"),
    ("class A:\n    def f(self):\n        super().__x\n", "private-name 3 __x"),
    ("class A:\n    def f(self):\n        super __x\n", "private-name 3 __x"),
    ("class A:\n    def f(self): pass\n__x = __y.__z\n", "ok"),
    ("class A: pass\n__x = 1\n", "ok"),
    ("class A:\n    def f(self):\n        x = self.__class__\n", "special-attribute 3 __class__"),
    ("super().__x__\n", "special-attribute 1 __x__"),
];

#[test]
fn special_and_private_names_are_barred(rt: HostRuntime) -> Result<(), Fail> {
    compare(&rt, rt.alloc(), &NAMES)
}

//! Imports.
use super::readings::compare;
use std::test::Fail;

#[rattlefmt::skip]
const MODULES: [(&str, &str); 24] = [
    ("import a\n", "ok"),
    ("import a as b\n", "ok"),
    ("import a.b as c, d, e.f.g as h\n", "ok"),
    ("import a.b\n", "dotted-import 1 \n"),
    ("import a.b, c\n", "dotted-import 1 ,"),
    ("import a.b)\n", "dotted-import 1 )"),
    ("import a.b = c\n", "dotted-import 1 ="),
    ("import a.b lambda\n", "lambda 1 lambda"),
    ("import a.b :=\n", "walrus 1 :="),
    ("import a.b.\n", "unexpected 1 \n"),
    ("import a b\n", "unexpected 1 b"),
    ("import a,\n", "unexpected 1 \n"),
    ("import a as b.c\n", "unexpected 1 ."),
    ("import (a)\n", "unexpected 1 ("),
    ("import\n", "unexpected 1 \n"),
    ("import .a\n", "unexpected 1 ."),
    ("import *\n", "star-import 1 *"),
    ("import a, *\n", "unexpected 1 *"),
    ("import a.__b__ as c\n", "special-attribute 1 __b__"),
    ("import a.__init__ as c\n", "ok"),
    ("import __a__, super\n", "ok"),
    ("import a as super; super.b\n", "super-form 1 ."),
    ("import a as None\n", "unexpected 1 None"),
    ("import a.*\n", "unexpected 1 *"),
];

#[test]
fn import_names_modules(rt: HostRuntime) -> Result<(), Fail> {
    compare(&rt, rt.alloc(), &MODULES)
}

#[rattlefmt::skip]
const PARTS: [(&str, &str); 24] = [
    ("from a import b\n", "ok"),
    ("from a.b.c import d as e, f\n", "ok"),
    ("from a import (b)\n", "ok"),
    ("from a import (b as c, d,)\n", "ok"),
    ("from a import (\n    b,\n    c\n)\n", "ok"),
    ("from a import b,\n", "unexpected 1 \n"),
    ("from a import ()\n", "unexpected 1 )"),
    ("from a import (b, c) as d\n", "unexpected 1 as"),
    ("from a import b.c\n", "unexpected 1 ."),
    ("from a import\n", "unexpected 1 \n"),
    ("from a\n", "unexpected 1 \n"),
    ("from a as b import c\n", "unexpected 1 as"),
    ("from a.b c\n", "unexpected 1 c"),
    ("from . import a\n", "relative-import 1 ."),
    ("from .a import b\n", "relative-import 1 ."),
    ("from ... import a\n", "relative-import 1 ..."),
    ("from a.. import b\n", "unexpected 1 ."),
    ("from a ... import b\n", "unexpected 1 ..."),
    ("from a import *\n", "star-import 1 *"),
    ("from a import b, *\n", "unexpected 1 *"),
    ("from a import (*)\n", "unexpected 1 *"),
    ("from a.__b__ import c\n", "special-attribute 1 __b__"),
    ("from __future__ import annotations\n", "ok"),
    ("from a import **\n", "unexpected 1 **"),
];

#[test]
fn from_takes_names(rt: HostRuntime) -> Result<(), Fail> {
    compare(&rt, rt.alloc(), &PARTS)
}

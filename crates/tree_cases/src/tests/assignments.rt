//! Assignments, their targets, and annotations.
use super::readings::compare;
use std::test::Fail;

#[rattlefmt::skip]
const TARGETS: [(&str, &str); 25] = [
    ("x = y = z = 1, 2,\n", "ok"),
    ("a, b = c\n", "ok"),
    ("a, = b\n", "ok"),
    ("(a, [b, c.d]), e[0] = f\n", "ok"),
    ("[a] = b\n", "ok"),
    ("((a.b)) = 1\n", "ok"),
    ("f(x).y = 1\n", "ok"),
    ("f(x)[0, 1] = 1\n", "ok"),
    ("1 .x = 2\n", "ok"),
    ("a + b = 1\n", "unexpected 1 ="),
    ("x = a + b = 1\n", "unexpected 1 ="),
    ("f(x) = 1\n", "unexpected 1 ="),
    ("1 = x\n", "unexpected 1 ="),
    ("() = x\n", "unexpected 1 ="),
    ("[] = x\n", "unexpected 1 ="),
    ("(a, ()) = x\n", "unexpected 1 ="),
    ("{} = x\n", "unexpected 1 ="),
    ("not x = 1\n", "unexpected 1 ="),
    ("a if b else c = d\n", "unexpected 1 ="),
    ("(a, b + c) = d\n", "unexpected 1 ="),
    ("x = = 1\n", "unexpected 1 ="),
    ("x =\n", "unexpected 1 \n"),
    ("x == 1\n", "ok"),
    ("x = y == z = 1\n", "unexpected 1 ="),
    ("x = 1 2\n", "unexpected 1 2"),
];

#[test]
fn values_are_assigned_to_targets(rt: HostRuntime) -> Result<(), Fail> {
    compare(&rt, rt.alloc(), &TARGETS)
}

#[rattlefmt::skip]
const AUGMENTED: [(&str, &str); 24] = [
    ("x += 1\n", "ok"),
    ("x.y -= 1, 2\n", "ok"),
    ("x[0] *= 1\n", "ok"),
    ("x /= 1; x //= 1; x %= 1; x @= 1\n", "ok"),
    ("x &= 1; x |= 1; x ^= 1; x >>= 1; x <<= 1; x **= 1\n", "ok"),
    ("(a) += 1\n", "ok"),
    ("((a[0])) += 1\n", "ok"),
    ("(a, b) += 1\n", "unexpected 1 +="),
    ("a, b += 1\n", "unexpected 1 +="),
    ("[a] += 1\n", "unexpected 1 +="),
    ("() += 1\n", "unexpected 1 +="),
    ("a + b += 1\n", "unexpected 1 +="),
    ("f() += 1\n", "unexpected 1 +="),
    ("a += b += c\n", "unexpected 1 +="),
    ("a = b += c\n", "unexpected 1 +="),
    ("a += b = c\n", "unexpected 1 ="),
    ("x[1:2] = 3\n", "slice-store 1 ="),
    ("x[1:2] += 3\n", "slice-store 1 +="),
    ("y, x[:] = z\n", "slice-store 1 ="),
    ("-x[1:2:3] = 3\n", "slice-store 1 ="),
    ("f(x[1:2]=3)\n", "slice-store 1 ="),
    ("x[1:2], y = z\n", "unexpected 1 ="),
    ("(x[1:2]) = 3\n", "unexpected 1 ="),
    ("[x[1:2]] = 3\n", "unexpected 1 ="),
];

#[test]
fn single_targets_are_augmented(rt: HostRuntime) -> Result<(), Fail> {
    compare(&rt, rt.alloc(), &AUGMENTED)
}

#[rattlefmt::skip]
const ANNOTATED: [(&str, &str); 25] = [
    ("x: int\n", "ok"),
    ("x: int = 1, 2\n", "ok"),
    ("x.y: a.b.c | None = 1\n", "ok"),
    ("(a).b: int\n", "ok"),
    ("x[0].y: int\n", "ok"),
    ("x: \"a\" 'b' | None\n", "ok"),
    ("x: Dict[str, List[int],]\n", "ok"),
    ("x: Callable[[], int] | Callable[..., a] | Callable[[a, b,], c]\n", "ok"),
    ("x: Tuple[int, ...]\n", "ok"),
    ("(a): int\n", "unexpected 1 :"),
    ("(a.b): int\n", "unexpected 1 :"),
    ("x[0]: int\n", "unexpected 1 :"),
    ("x[1:2]: int\n", "unexpected 1 :"),
    ("a, b: int\n", "unexpected 1 :"),
    ("f(): int\n", "unexpected 1 :"),
    ("x = y: int\n", "unexpected 1 :"),
    ("x: ...\n", "unexpected 1 ..."),
    ("x: (int)\n", "unexpected 1 ("),
    ("x: a[1]\n", "unexpected 1 1"),
    ("x: a[b][c]\n", "unexpected 1 ["),
    ("x: a[]\n", "unexpected 1 ]"),
    ("x: f(y)\n", "unexpected 1 ("),
    ("x: int = a = b\n", "unexpected 1 ="),
    ("x: True\n", "unexpected 1 True"),
    ("x: a.__b__\n", "special-attribute 1 __b__"),
];

#[test]
fn names_and_attributes_are_annotated(rt: HostRuntime) -> Result<(), Fail> {
    compare(&rt, rt.alloc(), &ANNOTATED)
}

//! The whole tree of a module that has each kind of statement and expression.
use super::trees::compare;
use std::test::Fail;

const MODULE: &str = r#"import os, a.b as c
from m.n import (p, q as r,)
x = y = None
(u, [v]), w = x, y
u[0] @= -v ** +2
n: List[int] = not True
m.k: "T"
g(1.5, "" 'a', b"", k=False).h[1:]
d = {1: [], x: ()}
pass; ...; assert x < y, n is not None
if a or b and c:
    x = 1 if a else 2
elif a not in b: raise
else:
    raise E from (
        x)
while ~x | y ^ 3 & 4:
    continue
for i, j in e, g:
    break
try:
    t[::n]; return
except (E, F) as e: return x,
except:
    z = 3 << 1 >> 2 - 3 * 4 / 5 // 6 % 7 @ 8
else: pass
class A(B):
    "doc"
    z = 0
    k: int
    ...
    def m(self, a: int = -1, b="s",) -> None:
        return super().m(a)
    pass
class C: pass
def h(): return
"#;

const TREE: &str = "1 Import os a.b as c
2 From m.n p q as r
3 Assign x#0 = y#1 = None#2
4 Assign Tuple(Tuple(u#3 List(v#4)#5)#6 w#7)#8 = Tuple(x#9 y#10)#11
5 Augment Item(u#12 0#13)#14 MatMul Minus(Pow(v#15 Plus(2#16)#17)#18)#19
6 Annotated n#20 Not(True#21)#22
7 Annotated .k(m#23)#24
8 Expression Slice(.h(Call(g#25 float#26 str#27 bytes0#28 k=False#29)#30)#31 1#32 _ _)#33
9 Assign d#34 = Dict(1#35:List()#36 x#37:Tuple()#38)#39
10 Pass
10 Ellipsis
10 Assert Less(x#40 y#41)#42 IsNot(n#43 None#44)#45
11 If
Arm Or(a#46 And(b#47 c#48)#49)#50
  12 Assign x#51 = Choice(1#52 a#53 2#54)#55
Arm NotWithin(a#56@13 b#57@13)#58@13
  13 Raise
Else
  15 Raise E#59 x#60@16
17 While BitOr(Invert(x#61)#62 BitXor(y#63 BitAnd(3#64 4#65)#66)#67)#68
  18 Continue
19 For Tuple(i#69 j#70)#71 in Tuple(e#72 g#73)#74
  20 Break
21 Try
  22 Expression Slice(t#75 _ _ n#76)#77
  22 Return
23 Except Tuple(E#78 F#79)#80 as e
  23 Return Tuple(x#81)#82
24 Except
  25 Assign z#83 = ShiftRight(ShiftLeft(3#84 1#85)#86 Sub(2#87 MatMul(Mod(FloorDiv(Div(Mul(3#88 4#89)#90 5#91)#92 6#93)#94 7#95)#96 8#97)#98)#99)#100
Else
  26 Pass
27 Class 0 A B
  Text
  29 Value z 0#101
  30 Annotated k
  Ellipsis
  32 Def 0 m self a=-1 b=str
    33 Return Call(super.m#102 a#103)#104
  Pass
35 Class 1 C
  Pass
36 Def 1 h
  36 Return
";

#[test]
fn each_kind_has_its_place_in_the_tree(rt: HostRuntime) -> Result<(), Fail> {
    compare(&rt, rt.alloc(), &[(MODULE, TREE)])
}

//! The rows, from the table of code by hand: names, functions and classes are numbered in the order of the text, and expressions in that order too, each after its parts.
use super::Row;

/// Expressions, whose values are dropped.
pub(super) static EXPRESSIONS: [Row; 18] = [
    Row {
        source: "",
        code: "1: End;",
    },
    Row {
        source: "pass\n...\n",
        code: "2: End;",
    },
    Row {
        source: "None\nTrue\nFalse\n1\n1.5\n'a'\nb'a'\n",
        code: "1: Const(NoneValue); Pop; 2: Const(TrueValue); Pop; 3: Const(FalseValue); Pop; 4: Const(Int); Pop; 5: Const(Float); Pop; 6: Const(Str); Pop; 7: Const(Bytes); Pop; End;",
    },
    Row {
        source: "-x\n",
        code: "1: LoadName(NameId(0)); Unary(Minus); Pop; End;",
    },
    Row {
        source: "not x\n",
        code: "1: LoadName(NameId(0)); Not; Pop; End;",
    },
    Row {
        source: "x - y * z\n",
        code: "1: LoadName(NameId(0)); LoadName(NameId(1)); LoadName(NameId(2)); Binary(Mul, SiteId(3)); Binary(Sub, SiteId(4)); Pop; End;",
    },
    Row {
        source: "x < y\n",
        code: "1: LoadName(NameId(0)); LoadName(NameId(1)); Compare(Less); Pop; End;",
    },
    Row {
        source: "x and y\n",
        code: "1: LoadName(NameId(0)); JumpIfFalseKeep(3); LoadName(NameId(1)); Pop; End;",
    },
    Row {
        source: "x or y\n",
        code: "1: LoadName(NameId(0)); JumpIfTrueKeep(3); LoadName(NameId(1)); Pop; End;",
    },
    Row {
        source: "x if y else z\n",
        code: "1: LoadName(NameId(1)); JumpIfFalse(4); LoadName(NameId(0)); Jump(5); LoadName(NameId(2)); Pop; End;",
    },
    Row {
        source: "x.a\n",
        code: "1: LoadName(NameId(0)); Attr(NameId(1)); Pop; End;",
    },
    Row {
        source: "x[y]\n",
        code: "1: LoadName(NameId(0)); LoadName(NameId(1)); Item; Pop; End;",
    },
    Row {
        source: "x[1:]\n",
        code: "1: LoadName(NameId(0)); Const(Int); Const(NoneValue); Const(NoneValue); Slice(SiteId(2)); Pop; End;",
    },
    Row {
        source: "x[::y]\n",
        code: "1: LoadName(NameId(0)); Const(NoneValue); Const(NoneValue); LoadName(NameId(1)); Slice(SiteId(2)); Pop; End;",
    },
    Row {
        source: "f(x, k=y)\n",
        code: "1: LoadName(NameId(0)); LoadName(NameId(1)); LoadName(NameId(3)); Call(1, Items { items: [NameId(2)] }, SiteId(3)); Pop; End;",
    },
    Row {
        source: "(x, y)\n",
        code: "1: LoadName(NameId(0)); LoadName(NameId(1)); NewTuple(2, SiteId(2)); Pop; End;",
    },
    Row {
        source: "[x]\n",
        code: "1: LoadName(NameId(0)); NewList(1, SiteId(1)); Pop; End;",
    },
    Row {
        source: "{x: y, 1: z}\n",
        code: "1: LoadName(NameId(0)); LoadName(NameId(1)); Const(Int); LoadName(NameId(2)); NewDict(2, SiteId(4)); Pop; End;",
    },
];

/// Assignments, annotations and imports.
pub(super) static STORES: [Row; 13] = [
    Row {
        source: "x = 1\ny = x\n",
        code: "1: Const(Int); StoreName(NameId(0)); 2: LoadName(NameId(0)); StoreName(NameId(1)); End;",
    },
    Row {
        source: "x = y = 'a'\n",
        code: "1: Const(Str); Pick(0); StoreName(NameId(0)); StoreName(NameId(1)); End;",
    },
    Row {
        source: "x.a = y\n",
        code: "1: LoadName(NameId(2)); LoadName(NameId(0)); Pick(1); StoreAttr(NameId(1)); Pop; End;",
    },
    Row {
        source: "x[y] = z\n",
        code: "1: LoadName(NameId(2)); LoadName(NameId(0)); LoadName(NameId(1)); Pick(2); StoreItem; Pop; End;",
    },
    Row {
        source: "x, y = z\n",
        code: "1: LoadName(NameId(2)); Part(1, 2); Part(0, 2); StoreName(NameId(0)); StoreName(NameId(1)); Pop; End;",
    },
    Row {
        source: "x, (y, z) = w\n",
        code: "1: LoadName(NameId(3)); Part(1, 2); Part(0, 2); StoreName(NameId(0)); Part(1, 2); Part(0, 2); StoreName(NameId(1)); StoreName(NameId(2)); Pop; Pop; End;",
    },
    Row {
        source: "x += 1\n",
        code: "1: LoadName(NameId(0)); Const(Int); InPlace(Add, SiteId(0)); StoreName(NameId(0)); End;",
    },
    Row {
        source: "x.a += y\n",
        code: "1: LoadName(NameId(0)); Pick(0); Attr(NameId(1)); LoadName(NameId(2)); InPlace(Add, SiteId(1)); StoreAttr(NameId(1)); End;",
    },
    Row {
        source: "x[y] -= z\n",
        code: "1: LoadName(NameId(0)); LoadName(NameId(1)); Pick(1); Pick(1); Item; LoadName(NameId(2)); InPlace(Sub, SiteId(2)); StoreItem; End;",
    },
    Row {
        source: "x: int = y\n",
        code: "1: LoadName(NameId(2)); StoreName(NameId(0)); End;",
    },
    Row {
        source: "x: int\n",
        code: "1: End;",
    },
    Row {
        source: "import a.b as c, d\n",
        code: "1: Import(Items { items: [NameId(0), NameId(1)] }); StoreName(NameId(2)); Import(Items { items: [NameId(3)] }); StoreName(NameId(3)); End;",
    },
    Row {
        source: "from a import b as c, d\n",
        code: "1: ImportFrom(Items { items: [NameId(0)] }, NameId(1)); StoreName(NameId(2)); ImportFrom(Items { items: [NameId(0)] }, NameId(3)); StoreName(NameId(3)); End;",
    },
];

/// Statements that jump or raise.
pub(super) static STATEMENTS: [Row; 15] = [
    Row {
        source: "if x:\n    y\n",
        code: "1: LoadName(NameId(0)); JumpIfFalse(5); 2: LoadName(NameId(1)); Pop; 1: Jump(5); End;",
    },
    Row {
        source: "if x:\n    y\nelif z:\n    w\nelse:\n    v\n",
        code: "1: LoadName(NameId(0)); JumpIfFalse(5); 2: LoadName(NameId(1)); Pop; 1: Jump(12); 3: LoadName(NameId(2)); 1: JumpIfFalse(10); 4: LoadName(NameId(3)); Pop; 1: Jump(12); 6: LoadName(NameId(4)); Pop; 1: End;",
    },
    Row {
        source: "while x:\n    y\n",
        code: "1: LoadName(NameId(0)); JumpIfFalse(5); 2: LoadName(NameId(1)); Pop; 1: Jump(0); End;",
    },
    Row {
        source: "while x:\n    break\n    continue\n",
        code: "1: LoadName(NameId(0)); JumpIfFalse(5); 2: Jump(5); 3: Jump(0); 1: Jump(0); End;",
    },
    Row {
        source: "for x in y:\n    z\n",
        code: "1: LoadName(NameId(1)); ForNext(6); StoreName(NameId(0)); 2: LoadName(NameId(2)); Pop; 1: Jump(1); End;",
    },
    Row {
        source: "for x in y:\n    if x:\n        break\n    continue\n",
        code: "1: LoadName(NameId(1)); ForNext(10); StoreName(NameId(0)); 2: LoadName(NameId(0)); JumpIfFalse(8); 3: Pop; Jump(10); 2: Jump(8); 4: Jump(1); 1: Jump(1); End;",
    },
    Row {
        source: "for x in y:\n    while z:\n        break\n    break\n",
        code: "1: LoadName(NameId(1)); ForNext(10); StoreName(NameId(0)); 2: LoadName(NameId(2)); JumpIfFalse(7); 3: Jump(7); 2: Jump(3); 4: Pop; Jump(10); 1: Jump(1); End;",
    },
    Row {
        source: "try:\n    x\nexcept:\n    y\n",
        code: "2: LoadName(NameId(0)); Pop; 1: Jump(10); Caught; 3: Pop; 4: LoadName(NameId(1)); Pop; 3: Jump(10); 1: Pop; Reraise; End; [0 2 3 0]",
    },
    Row {
        source: "try:\n    x\nexcept ValueError as e:\n    y\nexcept KeyError:\n    z\nelse:\n    w\n",
        code: "2: LoadName(NameId(0)); Pop; 8: LoadName(NameId(6)); Pop; 1: Jump(23); Caught; 3: LoadName(NameId(1)); MatchError; JumpIfFalse(14); StoreName(NameId(2)); 4: LoadName(NameId(3)); Pop; 3: ForgetName(NameId(2)); Jump(23); 5: LoadName(NameId(4)); MatchError; JumpIfFalse(21); Pop; 6: LoadName(NameId(5)); Pop; 5: Jump(23); 1: Pop; Reraise; End; [0 2 5 0]",
    },
    Row {
        source: "for x in y:\n    try:\n        z\n    except:\n        break\n",
        code: "1: LoadName(NameId(1)); ForNext(14); StoreName(NameId(0)); 3: LoadName(NameId(2)); Pop; 2: Jump(13); Caught; 4: Pop; 5: Pop; Jump(14); 4: Jump(13); 2: Pop; Reraise; 1: Jump(1); End; [3 5 6 1]",
    },
    Row {
        source: "raise x\n",
        code: "1: LoadName(NameId(0)); MakeRaised(SiteId(0)); Raise; End;",
    },
    Row {
        source: "raise x from y\n",
        code: "1: LoadName(NameId(0)); LoadName(NameId(1)); Pop; MakeRaised(SiteId(0)); Raise; End;",
    },
    Row {
        source: "try:\n    x\nexcept:\n    raise\n",
        code: "2: LoadName(NameId(0)); Pop; 1: Jump(9); Caught; 3: Pop; 4: Reraise; 3: Jump(9); 1: Pop; Reraise; End; [0 2 3 0]",
    },
    Row {
        source: "assert x\n",
        code: "1: LoadName(NameId(0)); JumpIfTrue(5); LoadName(NameId(1)); MakeRaised(SiteId(0)); Raise; End;",
    },
    Row {
        source: "assert x, y\n",
        code: "1: LoadName(NameId(0)); JumpIfTrue(7); LoadName(NameId(1)); Pop; LoadName(NameId(2)); MakeRaised(SiteId(0)); Raise; End;",
    },
];

/// Functions and classes.
pub(super) static DEFINITIONS: [Row; 4] = [
    Row {
        source: "def f(a, b=1):\n    c = a\n    return c\n",
        code: "1: Fun(FunId(0)); StoreName(NameId(0)); End; | 1: Param(0); Param(1); 2: LoadLocal(0); StoreLocal(2); 3: LoadLocal(2); Return; 1: Const(NoneValue); Return;",
    },
    Row {
        source: "def f():\n    return\n",
        code: "1: Fun(FunId(0)); StoreName(NameId(0)); End; | 2: Const(NoneValue); Return; 1: Const(NoneValue); Return;",
    },
    Row {
        source: "class A:\n    x = 1\n    y: int = 2\n    def m(self):\n        pass\n",
        code: "2: Const(Int); StoreMember(ClassId(0), NameId(1)); 3: Const(Int); StoreMember(ClassId(0), NameId(2)); 1: Class(ClassId(0)); StoreName(NameId(0)); End; | 4: Param(0); Const(NoneValue); Return;",
    },
    Row {
        source: "def f():\n    try:\n        pass\n    except ValueError as e:\n        pass\n",
        code: "1: Fun(FunId(0)); StoreName(NameId(0)); End; | 2: Jump(10); Caught; 4: LoadName(NameId(1)); MatchError; JumpIfFalse(8); StoreLocal(0); ForgetLocal(0); Jump(10); 2: Pop; Reraise; 1: Const(NoneValue); Return; [0 0 1 0]",
    },
];

/// Two functions, of which one is a method.
pub(super) static TABLES: &str =
    "def f(a):\n    return a\nclass C:\n    def m(self, b=1):\n        pass\n";

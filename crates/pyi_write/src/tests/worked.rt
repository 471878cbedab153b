//! Stubs of small modules.
use crate::tests::sketch::Sort::{Any, Bool, Int, Nothing, Str, Union};
use crate::tests::sketch::{Class, Def, Name, Row, Sort};

const INT_OR_STR: Sort = Union(&[Int, Str]);

const OPTIONAL_INT: Sort = Union(&[Int, Nothing]);

/// What names and functions have.
pub const PLAIN: [Row; 15] = [
    Row {
        names: &[],
        funs: &[],
        classes: &[],
        text: "",
    },
    Row {
        names: &[Name("x", Int), Name("y", Int)],
        funs: &[],
        classes: &[],
        text: "x: int\ny: int\n",
    },
    Row {
        names: &[Name("x", Str)],
        funs: &[],
        classes: &[],
        text: "x: str\n",
    },
    Row {
        names: &[Name("v", OPTIONAL_INT), Name("w", Int)],
        funs: &[Def("find", &["n"], 1, OPTIONAL_INT)],
        classes: &[],
        text: "from typing import Optional\n\nv: Optional[int]\nw: int\n\ndef find(n) -> Optional[int]: ...\n",
    },
    Row {
        names: &[Name("s", INT_OR_STR)],
        funs: &[Def("pick", &["n"], 1, INT_OR_STR)],
        classes: &[],
        text: "from typing import Union\n\ns: Union[int, str]\n\ndef pick(n) -> Union[int, str]: ...\n",
    },
    Row {
        names: &[Name("x", INT_OR_STR), Name("xs", Sort::List(&INT_OR_STR))],
        funs: &[Def("start", &["x"], 1, Sort::List(&INT_OR_STR))],
        classes: &[],
        text: "from typing import List, Union\n\nx: Union[int, str]\nxs: List[Union[int, str]]\n\ndef start(x) -> List[Union[int, str]]: ...\n",
    },
    Row {
        names: &[Name("r", Any)],
        funs: &[Def("down", &["n"], 1, Any)],
        classes: &[],
        text: "from typing import Any\n\nr: Any\n\ndef down(n) -> Any: ...\n",
    },
    Row {
        names: &[Name("y", Int)],
        funs: &[Def("twice", &["x"], 1, Int)],
        classes: &[],
        text: "y: int\n\ndef twice(x) -> int: ...\n",
    },
    Row {
        names: &[Name("ys", Sort::List(&Any))],
        funs: &[Def("fill", &["xs", "n"], 2, Nothing)],
        classes: &[],
        text: "from typing import Any, List\n\nys: List[Any]\n\ndef fill(xs, n) -> None: ...\n",
    },
    Row {
        names: &[Name("x", OPTIONAL_INT), Name("y", Nothing)],
        funs: &[],
        classes: &[],
        text: "from typing import Optional\n\nx: Optional[int]\ny: None\n",
    },
    Row {
        names: &[Name("x", INT_OR_STR), Name("y", Int)],
        funs: &[],
        classes: &[],
        text: "from typing import Union\n\nx: Union[int, str]\ny: int\n",
    },
    Row {
        names: &[],
        funs: &[Def("f", &["a", "b"], 1, Any)],
        classes: &[],
        text: "from typing import Any\n\ndef f(a, b=...) -> Any: ...\n",
    },
    Row {
        names: &[],
        funs: &[Def("first", &["xs"], 1, Any), Def("tag", &["x"], 1, Str)],
        classes: &[],
        text: "from typing import Any\n\ndef first(xs) -> Any: ...\ndef tag(x) -> str: ...\n",
    },
    Row {
        names: &[
            Name("e", Any),
            Name("p", Sort::Class("money.Price")),
            Name("u", Int),
        ],
        funs: &[],
        classes: &[],
        text: "import money\nfrom typing import Any\n\ne: Any\np: money.Price\nu: int\n",
    },
    // 127 bytes.
    Row {
        names: &[
            Name("x0", Int),
            Name("x1", Int),
            Name("y0", Str),
            Name("y1", Str),
        ],
        funs: &[
            Def("f0", &["a"], 1, INT_OR_STR),
            Def("f1", &["a"], 1, INT_OR_STR),
        ],
        classes: &[],
        text: "from typing import Union\n\nx0: int\nx1: int\ny0: str\ny1: str\n\ndef f0(a) -> Union[int, str]: ...\ndef f1(a) -> Union[int, str]: ...\n",
    },
];

/// Stubs that another setting, or another text of the same form, leads to.
pub const FURTHER: [Row; 6] = [
    Row {
        names: &[Name("r", INT_OR_STR)],
        funs: &[Def("mix", &["n"], 1, INT_OR_STR)],
        classes: &[],
        text: "from typing import Union\n\nr: Union[int, str]\n\ndef mix(n) -> Union[int, str]: ...\n",
    },
    Row {
        names: &[Name("y", Any)],
        funs: &[Def("twice", &["x"], 1, Any)],
        classes: &[],
        text: "from typing import Any\n\ny: Any\n\ndef twice(x) -> Any: ...\n",
    },
    Row {
        names: &[Name("x", Str), Name("y", Int)],
        funs: &[],
        classes: &[],
        text: "x: str\ny: int\n",
    },
    Row {
        names: &[Name("x", Int)],
        funs: &[],
        classes: &[],
        text: "x: int\n",
    },
    Row {
        names: &[],
        funs: &[Def("first", &["xs"], 1, Any), Def("tag", &["x"], 1, Any)],
        classes: &[],
        text: "from typing import Any\n\ndef first(xs) -> Any: ...\ndef tag(x) -> Any: ...\n",
    },
    Row {
        names: &[Name("x", Any), Name("y", Any)],
        funs: &[],
        classes: &[],
        text: "from typing import Any\n\nx: Any\ny: Any\n",
    },
];

/// What classes have.
pub const WITH_CLASSES: [Row; 3] = [
    Row {
        names: &[
            Name("c", Sort::Class("C")),
            Name("d", Sort::Class("C")),
            Name("p", INT_OR_STR),
            Name("q", INT_OR_STR),
        ],
        funs: &[],
        classes: &[Class {
            name: "C",
            base: None,
            names: &[Name("v", INT_OR_STR)],
            funs: &[Def("__init__", &["self", "v"], 2, Nothing)],
        }],
        text: "from typing import Union\n\nc: C\nd: C\np: Union[int, str]\nq: Union[int, str]\n\nclass C:\n    v: Union[int, str]\n    def __init__(self, v) -> None: ...\n",
    },
    Row {
        names: &[
            Name("n", Sort::Class("Leaf")),
            Name("v", Int),
            Name("w", Any),
        ],
        funs: &[],
        classes: &[
            Class {
                name: "Base",
                base: None,
                names: &[],
                funs: &[
                    Def("__init__", &["self", "x"], 2, Nothing),
                    Def("get", &["self"], 1, Int),
                ],
            },
            Class {
                name: "Mid",
                base: Some("Base"),
                names: &[],
                funs: &[Def("__init__", &["self", "x"], 2, Nothing)],
            },
            Class {
                name: "Leaf",
                base: Some("Mid"),
                names: &[Name("x", Int)],
                funs: &[Def("__init__", &["self", "x"], 2, Nothing)],
            },
        ],
        text: "from typing import Any\n\nn: Leaf\nv: int\nw: Any\n\nclass Base:\n    def __init__(self, x) -> None: ...\n    def get(self) -> int: ...\n\nclass Mid(Base):\n    def __init__(self, x) -> None: ...\n\nclass Leaf(Mid):\n    x: int\n    def __init__(self, x) -> None: ...\n",
    },
    Row {
        names: &[Name("due", Sort::Class("money.Price"))],
        funs: &[Def("main", &[], 0, Sort::Class("money.Price"))],
        classes: &[
            Class {
                name: "StockError",
                base: Some("Exception"),
                names: &[Name("name", Str)],
                funs: &[Def("__init__", &["self", "name"], 2, Nothing)],
            },
            Class {
                name: "Item",
                base: None,
                names: &[Name("count", Int), Name("name", Str), Name("note", Nothing)],
                funs: &[
                    Def("__init__", &["self", "name", "count"], 3, Nothing),
                    Def("take", &["self", "n"], 2, Int),
                ],
            },
            Class {
                name: "Store",
                base: None,
                names: &[
                    Name("items", Sort::Dict(&Str, &Sort::Class("Item"))),
                    Name("log", Sort::List(&Str)),
                ],
                funs: &[
                    Def("__init__", &["self"], 1, Nothing),
                    Def("add", &["self", "name", "count"], 3, Sort::Class("Item")),
                    Def("sell", &["self", "name", "n"], 3, Bool),
                ],
            },
        ],
        text: "import money\nfrom typing import Dict, List\n\ndue: money.Price\n\ndef main() -> money.Price: ...\n\nclass StockError(Exception):\n    name: str\n    def __init__(self, name) -> None: ...\n\nclass Item:\n    count: int\n    name: str\n    note: None\n    def __init__(self, name, count) -> None: ...\n    def take(self, n) -> int: ...\n\nclass Store:\n    items: Dict[str, Item]\n    log: List[str]\n    def __init__(self) -> None: ...\n    def add(self, name, count) -> Item: ...\n    def sell(self, name, n) -> bool: ...\n",
    },
];

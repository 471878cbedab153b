//! What the layout does where lists stand in no order, and where parts are empty.
use crate::tests::sketch::Sort::{Any, Bool, Bytes, Float, Int, Nothing, Str};
use crate::tests::sketch::{Class, Def, Name, Row, Sort};

/// Names and modules in no order.
pub const ORDERS: [Row; 2] = [
    Row {
        names: &[
            Name("b", Int),
            Name("a2", Float),
            Name("a10", Str),
            Name("_a", Bytes),
            Name("a", Bool),
            Name("B", Nothing),
        ],
        funs: &[],
        classes: &[],
        text: "B: None\n_a: bytes\na: bool\na10: str\na2: float\nb: int\n",
    },
    Row {
        names: &[
            Name("k", Sort::ClassOf("a.b.C")),
            Name("f", Sort::Callable(&Any)),
            Name("due", Sort::Class("money.Price")),
            Name("was", Sort::List(&Sort::Class("a.D"))),
        ],
        funs: &[Def("main", &[], 0, Sort::Class("money.Total"))],
        classes: &[],
        text: "import a\nimport a.b\nimport money\nfrom typing import Any, Callable, List, Type\n\ndue: money.Price\nf: Callable[..., Any]\nk: Type[a.b.C]\nwas: List[a.D]\n\ndef main() -> money.Total: ...\n",
    },
];

/// Classes alone. The names of the last have two of its methods too, whose types ask for nothing.
pub const CLASSES: [Row; 2] = [
    Row {
        names: &[],
        funs: &[],
        classes: &[
            Class {
                name: "C",
                base: None,
                names: &[],
                funs: &[],
            },
            Class {
                name: "D",
                base: Some("C"),
                names: &[],
                funs: &[],
            },
            Class {
                name: "E",
                base: Some("object"),
                names: &[Name("b", Int), Name("a", Int)],
                funs: &[],
            },
        ],
        text: "class C: ...\n\nclass D(C): ...\n\nclass E(object):\n    a: int\n    b: int\n",
    },
    Row {
        names: &[],
        funs: &[Def("f", &[], 0, Int)],
        classes: &[Class {
            name: "Store",
            base: None,
            names: &[
                Name("log", Sort::List(&Str)),
                Name("add", Any),
                Name("items", Sort::Dict(&Str, &Sort::Class("geo.Item"))),
                Name("sell", Sort::Class("money.Price")),
            ],
            funs: &[
                Def("sell", &["self"], 0, Int),
                Def("add", &["self", "name", "count"], 1, Bool),
            ],
        }],
        text: "import geo\nfrom typing import Dict, List\n\ndef f() -> int: ...\n\nclass Store:\n    items: Dict[str, geo.Item]\n    log: List[str]\n    def sell(self=...) -> int: ...\n    def add(self, name=..., count=...) -> bool: ...\n",
    },
];

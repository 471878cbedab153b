//! Types in any spelling, and what a stub writes of their normal form.
use crate::tests::sketch::Sort;
use crate::tests::sketch::Sort::{Any, Bool, Bytes, Float, Int, Nothing, Str, Union};

/// A type, and the text of the stub in which `x` has its normal form.
pub struct Typed(pub Sort, pub &'static str);

/// Unions.
pub const UNIONS: [Typed; 9] = [
    Typed(
        Union(&[Nothing, Int]),
        "from typing import Optional\n\nx: Optional[int]\n",
    ),
    Typed(
        Union(&[Nothing, Str, Int]),
        "from typing import Union\n\nx: Union[int, str, None]\n",
    ),
    Typed(Union(&[Int, Union(&[Int])]), "x: int\n"),
    Typed(Union(&[]), "from typing import Any\n\nx: Any\n"),
    Typed(
        Sort::List(&Union(&[Int, Any])),
        "from typing import Any, List\n\nx: List[Any]\n",
    ),
    Typed(
        Union(&[
            Sort::Class("ValueError"),
            Sort::Class("KeyError"),
            Sort::Class("LookupError"),
        ]),
        "from typing import Union\n\nx: Union[LookupError, ValueError]\n",
    ),
    Typed(
        Union(&[Nothing, Sort::Class("OSError"), Sort::Class("Exception")]),
        "from typing import Optional\n\nx: Optional[Exception]\n",
    ),
    Typed(
        Union(&[Sort::ClassOf("ValueError"), Sort::ClassOf("Exception")]),
        "from typing import Type, Union\n\nx: Union[Type[Exception], Type[ValueError]]\n",
    ),
    Typed(
        Union(&[
            Nothing,
            Sort::Callable(&Any),
            Sort::ClassOf("C"),
            Sort::Class("C"),
            Sort::Tuple(&[Int]),
            Sort::Dict(&Int, &Int),
            Sort::List(&Int),
            Bytes,
            Str,
            Float,
            Int,
            Bool,
        ]),
        "from typing import Any, Callable, Dict, List, Tuple, Type, Union\n\nx: Union[bool, int, float, str, bytes, List[int], Dict[int, int], Tuple[int], C, Type[C], Callable[..., Any], None]\n",
    ),
];

/// Types in types.
pub const NESTED: [Typed; 9] = [
    Typed(
        Sort::Dict(&Str, &Sort::List(&Sort::Tuple(&[Int, Str]))),
        "from typing import Dict, List, Tuple\n\nx: Dict[str, List[Tuple[int, str]]]\n",
    ),
    Typed(
        Sort::List(&Sort::List(&Sort::List(&Any))),
        "from typing import Any, List\n\nx: List[List[List[Any]]]\n",
    ),
    Typed(
        Sort::List(&Sort::Tuple(&[Int, Union(&[Nothing, Str])])),
        "from typing import List, Optional, Tuple\n\nx: List[Tuple[int, Optional[str]]]\n",
    ),
    Typed(
        Sort::Tuple(&[Sort::Tuple(&[]), Sort::TupleOf(&Bytes)]),
        "from typing import Tuple\n\nx: Tuple[Tuple[()], Tuple[bytes, ...]]\n",
    ),
    Typed(
        Sort::Dict(&Union(&[Str, Int]), &Union(&[Nothing, Sort::List(&Any)])),
        "from typing import Any, Dict, List, Optional, Union\n\nx: Dict[Union[int, str], Optional[List[Any]]]\n",
    ),
    Typed(
        Sort::Tuple(&[Sort::ClassOf("range"), Sort::Class("range"), Any]),
        "from typing import Any, Tuple, Type\n\nx: Tuple[Type[range], range, Any]\n",
    ),
    Typed(
        Union(&[Nothing, Sort::Class("money.Price")]),
        "import money\nfrom typing import Optional\n\nx: Optional[money.Price]\n",
    ),
    Typed(
        Sort::Callable(&Sort::List(&Sort::Class("a.b.C"))),
        "import a.b\nfrom typing import Callable, List\n\nx: Callable[..., List[a.b.C]]\n",
    ),
    Typed(
        Sort::Dict(
            &Sort::Class("m.K"),
            &Union(&[Sort::ClassOf("m.V"), Sort::Class("l.V")]),
        ),
        "import l\nimport m\nfrom typing import Dict, Type, Union\n\nx: Dict[m.K, Union[l.V, Type[m.V]]]\n",
    ),
];

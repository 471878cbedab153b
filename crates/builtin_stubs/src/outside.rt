//! The builtin names whose values are not followed.
ghost use Rattle.std.specs.Prelude.{◌≡◌, map};
ghost use Rattle.std.specs.List.{list_any};
ghost use Rattle.std.specs.Str.{bytes_eq};
ghost use Rattle.builtin_stubs.specs.Outside.{outside_names};

/// Library reference, "Built-in Functions".
pub(crate) const OUTSIDE: &[&str] = &[
    "abs",
    "all",
    "any",
    "ascii",
    "bin",
    "breakpoint",
    "bytearray",
    "callable",
    "classmethod",
    "compile",
    "complex",
    "delattr",
    "dir",
    "divmod",
    "eval",
    "exec",
    "filter",
    "format",
    "frozenset",
    "getattr",
    "globals",
    "hasattr",
    "hash",
    "help",
    "hex",
    "id",
    "iter",
    "issubclass",
    "locals",
    "map",
    "memoryview",
    "next",
    "oct",
    "open",
    "pow",
    "property",
    "reversed",
    "round",
    "set",
    "setattr",
    "slice",
    "staticmethod",
    "sum",
    "type",
    "vars",
    "IOError",
    "__import__",
    "__doc__",
];

/// Whether a name is one of them.
pub(crate) fn is_outside(name: &str) -> bool
    ensures { result ≡ list_any (bytes_eq name.now) outside_names }
{
    is_one_of(name, OUTSIDE)
}

fn is_one_of(name: &str, names: &[&str]) -> bool
    ensures { result ≡ list_any (bytes_eq name.now) (map (λ known. known.now) names.now) }
{
    for known in names {
        if name == *known {
            return true;
        }
    }
    false
}

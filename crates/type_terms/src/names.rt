//! The names that Python's builtin module has, without the exceptions, and those that a stub takes from the module `typing`.

pub const BUILTIN_FUNCTIONS: [&str; 12] = [
    "print",
    "input",
    "len",
    "ord",
    "repr",
    "chr",
    "isinstance",
    "sorted",
    "min",
    "max",
    "enumerate",
    "zip",
];

pub const BUILTIN_CLASSES: [&str; 10] = [
    "list", "tuple", "dict", "str", "int", "float", "bytes", "bool", "range", "object",
];

pub const BUILTIN_TEXTS: [&str; 2] = ["__name__", "__file__"];

pub const TYPING_NAMES: [&str; 8] = [
    "Any", "Callable", "Dict", "List", "Optional", "Tuple", "Type", "Union",
];

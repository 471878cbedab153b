//! Stubs by hand as data.

/// A type.
#[derive(Clone, Copy)]
pub enum Sort {
    Any,
    Nothing,
    Bool,
    Int,
    Float,
    Str,
    Bytes,
    List(&'static Sort),
    Dict(&'static Sort, &'static Sort),
    Tuple(&'static [Sort]),
    TupleOf(&'static Sort),
    Class(&'static str),
    ClassOf(&'static str),
    Callable(&'static Sort),
    Union(&'static [Sort]),
}

/// A name with its type.
#[derive(Clone, Copy)]
pub struct Name(pub &'static str, pub Sort);

/// A function: its name, its parameters, which of them is the first with a default, and what it returns.
#[derive(Clone, Copy)]
pub struct Def(
    pub &'static str,
    pub &'static [&'static str],
    pub usize,
    pub Sort,
);

/// A class with its base.
#[derive(Clone, Copy)]
pub struct Class {
    pub name: &'static str,
    pub base: Option<&'static str>,
    pub names: &'static [Name],
    pub funs: &'static [Def],
}

/// A stub, and the text that is wanted of it.
#[derive(Clone, Copy)]
pub struct Row {
    pub names: &'static [Name],
    pub funs: &'static [Def],
    pub classes: &'static [Class],
    pub text: &'static str,
}

//! What a stub declares.
use crate::TypeTerm;
use place_ids::{Sequence, Text};

/// A name with its type.
#[derive(Debug, Drop)]
pub struct StubName {
    pub name: Text,
    pub term: TypeTerm,
}

#[derive(Debug, Drop)]
pub struct StubParam {
    pub name: Text,
    pub term: TypeTerm,
    pub has_default: bool,
}

/// A function or a method, with the type of what it returns.
#[derive(Debug, Drop)]
pub struct StubFun {
    pub name: Text,
    pub params: Sequence<StubParam>,
    pub result: TypeTerm,
}

/// A class with its attributes and methods.
#[derive(Debug, Drop)]
pub struct StubClass {
    pub name: Text,
    pub base: Option<Text>,
    pub names: Sequence<StubName>,
    pub funs: Sequence<StubFun>,
}

/// What one module declares. Contracts see it without pointers.
#[derive(Debug, Drop)]
pub struct Stub {
    pub names: Sequence<StubName>,
    pub funs: Sequence<StubFun>,
    pub classes: Sequence<StubClass>,
}

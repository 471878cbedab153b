//! What a program keeps of its functions and classes.
use place_ids::{ClassId, FunId, NameId};
use py_tree::Literal;
use sqlite_items::Items;

/// A function: its name, its parameters with their defaults, and the class that it is a method of.
#[derive(Debug, Drop)]
pub struct FunRow {
    pub name: NameId,
    pub params: Items<NameId>,
    pub defaults: Items<Option<Literal>>,
    pub class: Option<ClassId>,
}

/// A class: its name, the name of its base, and its methods in the order of the text.
#[derive(Debug, Drop)]
pub struct ClassRow {
    pub name: NameId,
    pub base: Option<NameId>,
    pub methods: Items<FunId>,
}

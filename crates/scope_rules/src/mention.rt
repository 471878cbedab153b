//! What stands in a module's text for a name.
use place_ids::{LineNo, NameId};

/// What a name is where it stands.
#[derive(Clone, Copy, Debug, PartialEq, Eq)]
pub enum Role {
    /// An expression, or a target.
    Name,
    /// What is taken from `super()`.
    Super,
    Parameter,
    /// Bound by an assignment, a `for`, an `as` of `except`, or a member's value.
    Value,
    Import,
    /// Bound by a `def` or a `class`.
    Definition,
    /// Annotated without a value: a member of a class, or an attribute.
    Annotation,
    /// An attribute that is stored to.
    Store,
}

/// A name, and where it stands.
#[derive(Clone, Copy, Debug, PartialEq, Eq)]
pub struct Mention {
    pub name: NameId,
    pub role: Role,
    pub line: LineNo,
}

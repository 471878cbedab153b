//! What is kept of a method.
use place_ids::{FunId, NameId};

/// A method, by its name and its number among the functions.
#[derive(Clone, Copy, Debug, PartialEq, Eq)]
pub struct MethodRow {
    pub name: NameId,
    pub fun: FunId,
}

//! A whole module.
use crate::Stmt;
use place_ids::Names;

/// A module's statements, and the texts of the names in it.
#[derive(Debug, Drop)]
pub struct Module {
    pub body: Vec<Stmt>,
    pub names: Names,
}

//! Ids, spans and the tables that ids are places of.
#![tactic(auto)]

mod graph_ids;
mod id;
mod lines;
mod names;
mod operators;
mod sequence;
mod table;
#[cfg(test)]
mod tests;
mod text;
mod tree_ids;

pub use graph_ids::{ContextId, PointId, ShapeId, VarId};
pub use id::Id;
pub use lines::{LineNo, Span};
pub use names::Names;
pub use operators::{BinOp, CompareOp, UnaryOp};
pub use sequence::Sequence;
pub use table::{PushFault, Table};
pub use text::Text;
pub use tree_ids::{ClassId, FunId, NameId, SiteId};

//! What points and variables stand for, by the numbers of their contexts.
use place_ids::{ContextId, NameId};

/// A place of a context's code, with the depth that the stack has there.
#[derive(Clone, Copy, Debug, PartialEq, Eq, Hash)]
pub struct PointSpot {
    pub context: ContextId,
    pub place: u32,
    pub depth: u32,
}

/// A local or a slot of a context, or a global.
#[derive(Clone, Copy, Debug, PartialEq, Eq, Hash)]
pub enum VariableSpot {
    Local(ContextId, u32),
    Slot(ContextId, u32),
    Global(NameId),
}

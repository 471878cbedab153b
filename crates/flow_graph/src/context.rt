//! Call contexts.
use place_ids::{ContextId, FunId, PointId};

/// A chain of calls: the context that was called from, the point of the call and the function that was called, each where there is one.
#[derive(Clone, Copy, Debug, PartialEq, Eq, Hash)]
pub struct Context {
    pub parent: Option<ContextId>,
    pub call: Option<PointId>,
    pub fun: Option<FunId>,
}

//! Where a point stands.
use place_ids::{ContextId, FunId};

/// A place of a context's code. There is no function in the module's own code.
#[derive(Clone, Copy, Debug, PartialEq, Eq)]
pub struct Spot {
    pub context: ContextId,
    pub fun: Option<FunId>,
    pub place: u32,
}

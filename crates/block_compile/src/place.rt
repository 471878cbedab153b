//! Where a statement stands.
ghost use Rattle.std.specs.Prelude.{◌≡◌, suc, true, false, IfOk};

use place_ids::NameId;
use std::alloc::AllocError;

/// The name AssertionError, how deep the stack is, and of the innermost loop where `continue` leads and whether it keeps an iterable on the stack.
#[derive(Drop)]
pub struct Place {
    pub error: NameId,
    pub depth: u32,
    pub again: u32,
    pub keeps: bool,
}

impl Place {
    /// The same within a `while`.
    pub fn in_while(&self, again: u32) -> Place
        ensures { result ≡ record self.now { again = again; keeps = false } }
    {
        Place {
            error: self.error,
            depth: self.depth,
            again,
            keeps: false,
        }
    }

    /// The same within a `for`, whose iterable lies below. A stack that can't be counted is taken for want of memory.
    pub fn in_for(&self, again: u32) -> Result<Place, AllocError>
        ensures { IfOk result (λ place. place ≡ record self.now { depth = suc self.now.depth; again = again; keeps = true }) }
    {
        if self.depth == u32::MAX {
            return Err(AllocError);
        }
        Ok(Place {
            error: self.error,
            depth: self.depth + 1,
            again,
            keeps: true,
        })
    }
}

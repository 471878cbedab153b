//! Why code is not valid.
use thiserror::Error;

/// Why code is not valid: the first instruction that breaks a rule, for `RangeOut` the first range, and for `DepthDiffers` some place that gets two depths. Where several rules are broken, the fault is that of the one named first.
#[derive(Clone, Copy, Debug, PartialEq, Eq, Error)]
pub enum CodeFault {
    /// A jump leads out of the code.
    #[error("a jump leaves the code")]
    JumpOut(u32),
    /// The stack may have one or another number of slots at a place.
    #[error("a place has two depths")]
    DepthDiffers(u32),
    /// An instruction finds too few slots.
    #[error("too few slots on the stack")]
    Underflow(u32),
    /// A range or its handler is not within the code.
    #[error("a range leaves the code")]
    RangeOut(u32),
    #[error("out of memory")]
    Memory,
}

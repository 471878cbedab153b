//! Why a world could not be made or grown.

/// Why a call was refused.
#[derive(Clone, Copy, Debug, PartialEq, Eq)]
pub enum VmFault {
    /// The world has more than 400,000 items.
    Full,
    Memory,
}

//! The blocks of code: its maximal runs that are entered only at their first and left only at their last instruction.
ghost use Rattle.std.specs.Prelude.{◌≡◌};

use sqlite_items::Items;
use std::marker::Model;

/// Runs of instructions, each with its first place and the place after its last.
#[derive(Debug, Drop)]
pub struct Blocks {
    pub(crate) ranges: Items<(u32, u32)>,
}

impl Model for Blocks {
    ghost use Rattle.std.specs.Prelude.{List, ℕ};

    ghost Value = { List (ℕ × ℕ) };

    ghost view = { λ blocks. blocks.ranges };
}

impl Blocks {
    /// The runs in order. Each place is in one.
    pub fn ranges(&self) -> &[(u32, u32)]
        ensures { result.now ≡ self.now }
    {
        self.ranges.as_slice()
    }
}

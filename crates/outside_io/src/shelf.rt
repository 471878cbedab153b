//! Where files come from.
ghost use Rattle.std.specs.Prelude.{◌≡◌, ℕ, ◌≤◌, List, Option, Some, IsErrOf, IfOk, IfSome, OnOk};
ghost use Rattle.outside_io.specs.Outside.{Gives, Rose};
ghost use Rattle.outside_io.specs.Reading.{IsWithin};

use std::alloc::Global;

/// What a fetch that doesn't fail gives.
#[derive(Debug, Drop)]
pub enum Fetched {
    /// All the bytes of the file.
    Whole(Vec<u8>),
    /// The file has more bytes than the limit.
    TooLong,
}

/// Why a fetch gives nothing.
#[derive(Clone, Copy, Debug, PartialEq, Eq)]
pub enum ShelfFault {
    /// The file couldn't be read, or isn't there.
    Failed,
    Memory,
}

/// Files by their names. A shelf may tell what it holds, or not, as one over real files.
pub trait Shelf {
    ghost held: { Self → Option (List ℕ → Option (List ℕ)) };

    // How often a fetch has failed: a counter that stays at 2^64 - 1.
    ghost faults: { Self → ℕ };

    // The name of the last fetch that failed.
    ghost last: { Self → Option (List ℕ) };

    /// Reads the file of this name. A name that isn't held is a failure. What is read is at most `limit` + 1 bytes.
    fn fetch(&mut self, alloc: Global, name: &str, limit: usize) -> Result<Fetched, ShelfFault>
        ensures given { IfOk result (λ fetched. IfSome (held self.old) (λ files. Gives files name.now limit fetched)) }
        ensures within { IfOk result (IsWithin limit) }
        ensures failed { IsErrOf result ShelfFault.Failed → Rose (faults self.old) (faults self.new) × (last self.new ≡ Some name.now) }

        // Nothing else counts as a failure.
        ensures quiet { OnOk result ((faults self.new ≡ faults self.old) × (last self.new ≡ last self.old)) }
        ensures quiet_memory { IsErrOf result ShelfFault.Memory → (faults self.new ≡ faults self.old) × (last self.new ≡ last self.old) }

        // No fetch changes what is held, and the count never falls.
        ensures kept { held self.new ≡ held self.old }
        ensures counted { faults self.old ≤ faults self.new };
}

//! Where text goes.
ghost use Rattle.std.specs.Prelude.{◌≡◌, ℕ, ◌<◌, ◌≤◌, List, Option, IfOk, OnOk, OnErr, length, take};
ghost use Rattle.outside_io.specs.Outside.{Rose, Takes};

/// A put failed, and nothing of its piece was taken.
#[derive(Clone, Copy, Debug, PartialEq, Eq)]
pub struct SinkFailed;

/// Takes bytes. A sink may tell what it has taken, or not, as a real stream.
pub trait Sink {
    // The bytes so far, where the sink tells them.
    ghost taken: { Self → Option (List ℕ) };

    // How often a put has failed: a counter that stays at 2^64 - 1.
    ghost faults: { Self → ℕ };

    /// Takes a prefix of the piece, and answers its length.
    fn put(&mut self, piece: &[u8]) -> Result<usize, SinkFailed>
        ensures took { IfOk result (λ count. Takes (taken self.old) (taken self.new) (take count piece.now)) }
        ensures within { IfOk result (λ count. count ≤ length piece.now) }

        // To take nothing of a piece that isn't empty is a failure.
        ensures some { IfOk result (λ count. 0 < length piece.now → 0 < count) }
        ensures quiet { OnOk result (faults self.new ≡ faults self.old) }
        ensures failed { OnErr result (Rose (faults self.old) (faults self.new)) }
        ensures untouched { OnErr result (taken self.new ≡ taken self.old) }
        ensures counted { faults self.old ≤ faults self.new };
}

//! A sink in memory that tells what it took, and fails where it is told to.
ghost use Rattle.std.specs.Prelude.{◌≡◌, ◌<◌, ◌≤◌, ◌↔◌, [], ◌++◌, Contains, IfOk, IsErr, IsTrue, OnErr, OnOk, length, take};
ghost use Rattle.outside_io.specs.Counts.{next_count};
ghost use Rattle.outside_io.specs.Outside.{Rose, Takes};
ghost use Rattle.outside_io.specs.SinkState.{SinkState, PutFails, put_count};

use crate::listed::is_listed;
use crate::sink::{Sink, SinkFailed};
use std::alloc::{AllocError, Global};
use std::marker::Model;

/// Takes bytes up to a fixed number, so many at a put, and fails at the puts that are listed.
#[derive(Debug, Drop)]
pub struct MemorySink {
    bytes: Vec<u8>,
    room: usize,
    piece: usize,
    fails: Vec<u32>,
    puts: u64,
    faults: u64,
}

impl Model for MemorySink {
    ghost use Rattle.std.specs.Prelude.{◌≤◌, vec_capacity, vec_len};
    ghost use Rattle.outside_io.specs.SinkState.{SinkState};

    ghost Value = { SinkState };

    ghost view = { λ s. record {
      bytes = s.bytes.items;
      room = s.room;
      piece = s.piece;
      failing = s.fails.items;
      puts = s.puts;
      faults = s.faults;
    } };

    ghost invariant = { λ s. (1 ≤ s.piece) × (vec_len s.bytes ≤ s.room) × (s.room ≤ vec_capacity s.bytes) };
}

impl MemorySink {
    /// `room` and `piece` are numbers of bytes; the puts in `fails` are numbered from 1.
    pub fn new(
        alloc: Global,
        room: usize,
        piece: usize,
        fails: &[u32],
    ) -> Result<MemorySink, AllocError>
        requires { 1 ≤ piece }
        ensures { IfOk result (λ sink. sink
            ≡ record { bytes = []; room = room; piece = piece; failing = fails.now; puts = 0; faults = 0 }) }
    {
        let bytes = Vec::with_capacity(alloc, room)?;
        let fails = Vec::from_slice(alloc, fails)?;
        Ok(MemorySink {
            bytes,
            room,
            piece,
            fails,
            puts: 0,
            faults: 0,
        })
    }

    /// What was taken so far.
    pub fn bytes(&self) -> &[u8]
        ensures { result.now ≡ self.now.bytes }
    {
        self.bytes.as_slice()
    }

    fn will_fail(&self, piece: &[u8]) -> bool
        ensures { IsTrue result ↔ PutFails self.now piece.now }
    {
        let number = self.puts.saturating_add(1);
        let is_full = self.bytes.len() >= self.room;
        is_listed(self.fails.as_slice(), number) || (!piece.is_empty() && is_full)
    }
}

impl Sink for MemorySink {
    ghost use Rattle.std.specs.Prelude.{Some};

    ghost taken = { λ s. Some s.bytes };

    ghost faults = { λ s. s.faults };

    fn put(&mut self, piece: &[u8]) -> Result<usize, SinkFailed>
        ensures took { IfOk result (λ count. Takes (Some self.old.bytes) (Some self.new.bytes) (take count piece.now)) }
        ensures within { IfOk result (λ count. count ≤ length piece.now) }
        ensures some { IfOk result (λ count. 0 < length piece.now → 0 < count) }
        ensures quiet { OnOk result (self.new.faults ≡ self.old.faults) }
        ensures failed { OnErr result (Rose self.old.faults self.new.faults) }
        ensures untouched { OnErr result (Some self.new.bytes ≡ Some self.old.bytes) }
        ensures counted { self.old.faults ≤ self.new.faults }

        // Which puts fail, how much the others take, and that each is counted.
        ensures fails { IsErr result ↔ PutFails self.old piece.now }
        ensures count { IfOk result (λ count. count ≡ put_count self.old piece.now) }
        ensures taken { IfOk result (λ count. self.new ≡ record self.old {
          bytes = self.old.bytes ++ take count piece.now;
          puts = next_count self.old.puts;
        }) }
        ensures lost { OnErr result (self.new
            ≡ record self.old { puts = next_count self.old.puts; faults = next_count self.old.faults }) }
    {
        let fails = self.will_fail(piece);
        self.puts = self.puts.saturating_add(1);
        if fails {
            self.faults = self.faults.saturating_add(1);
            return Err(SinkFailed);
        }
        let left = self.room - self.bytes.len();
        let count = self.piece.min(left.min(piece.len()));
        self.bytes.extend_from_slice(&piece[..count]).unwrap();
        Ok(count)
    }
}

#[cfg(test)]
mod tests {
    use super::*;
    use std::test::Fail;

    #[test]
    fn takes_what_fits_a_put(rt: HostRuntime) -> Result<(), Fail> {
        let mut sink = MemorySink::new(rt.alloc(), 5, 3, &[3])?;
        let pieces = ["abcd", "", "d", "defg", "fg", ""];
        let taken = [Ok(3), Ok(0), Err(SinkFailed), Ok(2), Err(SinkFailed), Ok(0)];
        for (piece, expected) in pieces.iter().zip(taken) {
            assert_eq!(rt; sink.put(piece.as_bytes()), expected, "at {piece}");
        }
        assert_eq!(rt; sink.bytes(), b"abcde".as_slice());
        assert_eq!(rt; sink.puts, 6);
        assert_eq!(rt; sink.faults, 2);
        Ok(())
    }
}

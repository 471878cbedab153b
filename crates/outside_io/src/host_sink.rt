//! A sink over a real stream.
ghost use Rattle.std.specs.Prelude.{◌≡◌, ◌<◌, ◌≤◌, None, IfOk, OnErr, OnOk, length, take};
ghost use Rattle.std.specs.Io.KnownBytes.{Appends};
ghost use Rattle.outside_io.specs.Counts.{next_count};
ghost use Rattle.outside_io.specs.HostSinkState.{HostSinkState};
ghost use Rattle.outside_io.specs.Outside.{Rose, Takes};

use crate::sink::{Sink, SinkFailed};
use std::io::Write;
use std::marker::Model;

/// Writes to a stream. As a sink it doesn't tell what the stream took.
#[derive(Drop)]
pub struct HostSink<W: Write + Drop> {
    writer: W,
    faults: u64,
}

impl<W: Write + Drop> Model for HostSink<W> {
    ghost use Rattle.outside_io.specs.HostSinkState.{HostSinkState};

    ghost Value = { HostSinkState W };

    ghost view = { λ s. record { writer = s.writer; faults = s.faults } };
}

impl<W: Write + Drop> HostSink<W> {
    /// A sink over this stream.
    pub fn new(writer: W) -> HostSink<W>
        ensures { result ≡ record { writer = writer; faults = 0 } }
    {
        HostSink { writer, faults: 0 }
    }
}

/// Writes once and flushes. After a failure some bytes may be written.
fn write_once<W: Write>(writer: &mut W, piece: &[u8]) -> Result<usize, SinkFailed>
    ensures within { IfOk result (λ count. count ≤ length piece.now) }
    ensures some { IfOk result (λ count. 0 < length piece.now → 0 < count) }
    ensures written { IfOk result (λ count.
        Appends (W.contents writer.old) (W.contents writer.new) (take count piece.now)) }
{
    let Ok(count) = writer.write(piece) else {
        return Err(SinkFailed);
    };
    if count == 0 && !piece.is_empty() {
        return Err(SinkFailed);
    }
    match writer.flush() {
        Ok(()) => Ok(count),
        Err(_) => Err(SinkFailed),
    }
}

impl<W: Write + Drop> Sink for HostSink<W> {
    ghost taken = { λ _. None };

    ghost faults = { λ s. s.faults };

    fn put(&mut self, piece: &[u8]) -> Result<usize, SinkFailed>
        ensures within { IfOk result (λ count. count ≤ length piece.now) }
        ensures some { IfOk result (λ count. 0 < length piece.now → 0 < count) }
        ensures quiet { OnOk result (self.new.faults ≡ self.old.faults) }
        ensures failed { OnErr result (Rose self.old.faults self.new.faults) }
        ensures counted { self.old.faults ≤ self.new.faults }

        // A failure is counted once, and what a put takes was written.
        ensures lost { OnErr result (self.new.faults ≡ next_count self.old.faults) }
        ensures written { IfOk result (λ count.
            Appends (W.contents self.old.writer) (W.contents self.new.writer) (take count piece.now)) }
    {
        let count = write_once(&mut self.writer, piece);
        if count.is_err() {
            self.faults = self.faults.saturating_add(1);
        }
        count
    }
}

#[cfg(test)]
mod tests {
    use super::*;
    use std::io;
    use std::io::ErrorKind;
    use std::test::Fail;

    #[derive(Clone, Copy, Debug)]
    enum Stream {
        Takes(usize),
        Fails,
        FailsToFlush,
    }

    impl Write for Stream {
        fn write(&mut self, buf: &[u8]) -> io::Result<usize> {
            match self {
                Stream::Takes(count) => Ok(buf.len().min(*count)),
                Stream::Fails => Err(io::Error::from(ErrorKind::Other)),
                Stream::FailsToFlush => Ok(buf.len()),
            }
        }

        fn flush(&mut self) -> io::Result<()> {
            match self {
                Stream::FailsToFlush => Err(io::Error::from(ErrorKind::Other)),
                _ => Ok(()),
            }
        }
    }

    #[test]
    fn counts_each_put_that_fails(rt: HostRuntime) {
        let cases = [
            (Stream::Takes(2), "abc", Ok(2)),
            (Stream::Takes(9), "abc", Ok(3)),
            (Stream::Takes(0), "abc", Err(SinkFailed)),
            (Stream::Takes(0), "", Ok(0)),
            (Stream::Fails, "abc", Err(SinkFailed)),
            (Stream::FailsToFlush, "abc", Err(SinkFailed)),
        ];
        for (stream, piece, expected) in cases {
            let mut sink = HostSink::new(stream);
            assert_eq!(rt; sink.put(piece.as_bytes()), expected, "at {stream:?}");
            assert_eq!(rt; sink.faults, u64::from(expected.is_err()), "at {stream:?}");
        }
    }

    #[test]
    fn writes_to_the_stream(rt: HostRuntime) -> Result<(), Fail> {
        let mut sink = HostSink::new(Vec::new(rt.alloc()));
        assert_eq!(rt; sink.put(b"abc".as_slice()), Ok(3));
        assert_eq!(rt; sink.put(b"de".as_slice()), Ok(2));
        assert_eq!(rt; sink.writer.as_slice(), b"abcde".as_slice());
        Ok(())
    }
}

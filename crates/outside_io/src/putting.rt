//! Puts a whole text to a sink, one piece after another.
ghost use Rattle.std.specs.Prelude.{◌≡◌, ◌<◌, ◌≤◌, IfErr, OnErr, OnOk, length, take};
ghost use Rattle.outside_io.specs.Outside.{Rose, Takes};

use crate::sink::{Sink, SinkFailed};

/// A put failed before the whole text was taken.
#[derive(Clone, Copy, Debug, PartialEq, Eq)]
pub struct WriteStop {
    /// How many bytes of the text were taken.
    pub done: usize,
}

/// Puts the text until all of it is taken or a put fails.
pub fn put_all<S: Sink>(sink: &mut S, text: &[u8]) -> Result<(), WriteStop>
    ensures whole { OnOk result (Takes (S.taken sink.old) (S.taken sink.new) text.now) }
    ensures quiet { OnOk result (S.faults sink.new ≡ S.faults sink.old) }
    ensures front { IfErr result (λ stop. Takes (S.taken sink.old) (S.taken sink.new) (take stop.done text.now)) }
    ensures short { IfErr result (λ stop. stop.done < length text.now) }
    ensures failed { OnErr result (Rose (S.faults sink.old) (S.faults sink.new)) }
    ensures counted { S.faults sink.old ≤ S.faults sink.new }
{
    let mut done = 0;
    while done < text.len() {
        match sink.put(&text[done..]) {
            Ok(count) => done += count,
            Err(SinkFailed) => return Err(WriteStop { done }),
        }
    }
    Ok(())
}

#[cfg(test)]
mod tests {
    use super::*;
    use crate::memory_sink::MemorySink;
    use std::test::Fail;

    #[test]
    fn puts_pieces_until_one_fails(rt: HostRuntime) -> Result<(), Fail> {
        let text = b"x: int\ny: int\n".as_slice();
        let mut sink = MemorySink::new(rt.alloc(), 64, 4, &[2])?;
        assert_eq!(rt; put_all(&mut sink, text), Err(WriteStop { done: 4 }));
        assert_eq!(rt; sink.bytes(), b"x: i".as_slice());

        // The second put was the one that failed, so the rest of the text follows.
        assert_eq!(rt; put_all(&mut sink, &text[4..]), Ok(()));
        assert_eq!(rt; sink.bytes(), text);
        assert_eq!(rt; put_all(&mut sink, b"".as_slice()), Ok(()));
        Ok(())
    }

    #[test]
    fn stops_where_there_is_no_room(rt: HostRuntime) -> Result<(), Fail> {
        let mut sink = MemorySink::new(rt.alloc(), 5, 3, &[])?;
        assert_eq!(rt;
            put_all(&mut sink, b"abcdefg".as_slice()),
            Err(WriteStop { done: 5 })
        );
        assert_eq!(rt; sink.bytes(), b"abcde".as_slice());
        Ok(())
    }
}

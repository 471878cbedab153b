//! Reads texts under a limit of their length.
ghost use Rattle.std.specs.Prelude.{◌+◌, IfOk, IfSome, IsOkUnless};
ghost use Rattle.outside_io.specs.Reading.{IsReadOf, IsWithin, ReadsUpTo};

use crate::shelf::{Fetched, ShelfFault};
use std::alloc::Global;
use std::io::Read;

/// A copy of the text, where it has no more bytes than the limit.
pub(crate) fn copy_within(alloc: Global, text: &[u8], limit: usize) -> Result<Fetched, ShelfFault>
    ensures read { IfOk result (IsReadOf text.now limit) }
    ensures memory { IsOkUnless result ShelfFault.Memory }
{
    if text.len() > limit {
        return Ok(Fetched::TooLong);
    }
    match Vec::from_slice(alloc, text) {
        Ok(bytes) => Ok(Fetched::Whole(bytes)),
        Err(_) => Err(ShelfFault::Memory),
    }
}

/// Reads to the end, or until one byte more than the limit is read.
pub(crate) fn read_within<F: Read>(
    alloc: Global,
    file: &mut F,
    limit: usize,
) -> Result<Fetched, ShelfFault>
    ensures within { IfOk result (IsWithin limit) }

    // Where the reader tells its bytes, these are what was read.
    ensures read { IfOk result (λ fetched. IfSome (F.remaining file.old) (λ text. IsReadOf text limit fetched)) }
    ensures most { ReadsUpTo (limit + 1) (F.remaining file.old) (F.remaining file.new) }
{
    let mut bytes = Vec::new(alloc);
    let mut buffer = [0; 4096];
    loop {
        let left = limit - bytes.len();
        let piece = &mut buffer[..left.min(4095) + 1];
        let Ok(count) = file.read(piece) else {
            return Err(ShelfFault::Failed);
        };
        if count == 0 {
            return Ok(Fetched::Whole(bytes));
        }
        if count > left {
            return Ok(Fetched::TooLong);
        }
        if bytes.extend_from_slice(&piece[..count]).is_err() {
            return Err(ShelfFault::Memory);
        }
    }
}

#[cfg(test)]
mod tests {
    use super::*;
    use std::io;
    use std::io::ErrorKind;

    /// Gives two bytes, and then fails.
    #[derive(Drop)]
    struct Broken {
        given: bool,
    }

    impl Read for Broken {
        fn read(&mut self, buf: &mut [u8]) -> io::Result<usize> {
            if self.given || buf.len() < 2 {
                return Err(io::Error::from(ErrorKind::Other));
            }
            self.given = true;
            buf[0] = b'h';
            buf[1] = b'i';
            Ok(2)
        }
    }

    #[test]
    fn gives_nothing_of_a_read_that_fails(rt: HostRuntime) {
        let mut file = Broken { given: false };
        let fetched = read_within(rt.alloc(), &mut file, 9);
        assert!(rt; matches!(&fetched, Err(ShelfFault::Failed)));
    }
}

//! A shelf over real files.
ghost use Rattle.std.specs.Prelude.{◌≡◌, ◌≤◌, ⊤, None, Some, IfOk, IfSome, IsErrOf, OnOk};
ghost use Rattle.outside_io.specs.Counts.{next_count};
ghost use Rattle.outside_io.specs.HostShelfState.{HostShelfState};
ghost use Rattle.outside_io.specs.Outside.{Rose};
ghost use Rattle.outside_io.specs.Reading.{IsReadOf, IsWithin};

use crate::reading::read_within;
use crate::shelf::{Fetched, Shelf, ShelfFault};
use std::alloc::Global;
use std::fs;
use std::marker::Model;
use std::rt::Files;

/// Fetches files by their paths. It doesn't tell what they hold.
#[derive(Drop)]
pub struct HostShelf<'a, R: Files> {
    rt: &'a R,
    last: Option<String>,
    faults: u64,
}

impl<'a, R: Files> Model for HostShelf<'a, R> {
    ghost use Rattle.std.specs.Prelude.{string_bytes};
    ghost use Rattle.std.specs.Option.{option_map};
    ghost use Rattle.outside_io.specs.HostShelfState.{HostShelfState};

    ghost Value = { HostShelfState };

    ghost view = { λ s. record { faults = s.faults; last = option_map string_bytes s.last } };
}

impl<'a, R: Files> HostShelf<'a, R> {
    /// A shelf over the files of this runtime.
    pub fn new(rt: &'a R) -> HostShelf<'a, R>
        ensures { result ≡ record { faults = 0; last = None } }
    {
        HostShelf {
            rt,
            last: None,
            faults: 0,
        }
    }
}

fn read_file<R: Files>(
    rt: &R,
    alloc: Global,
    name: &str,
    limit: usize,
) -> Result<Fetched, ShelfFault>
    ensures within { IfOk result (IsWithin limit) }
    ensures read { IfOk result (λ fetched. (file : R.File)
        × IfSome (R.File.remaining file) (λ text. IsReadOf text limit fetched)) }
{
    match fs::open(rt, name) {
        Ok(mut file) => read_within(alloc, &mut file, limit),
        Err(_) => Err(ShelfFault::Failed),
    }
}

impl<'a, R: Files> Shelf for HostShelf<'a, R> {
    ghost held = { λ _. None };

    ghost faults = { λ s. s.faults };

    ghost last = { λ s. s.last };

    fn fetch(&mut self, alloc: Global, name: &str, limit: usize) -> Result<Fetched, ShelfFault>
        // It tells nothing of what it holds, so nothing is said here of what is given.
        ensures given { IfOk result (λ _. ⊤) }
        ensures failed { IsErrOf result ShelfFault.Failed
            → Rose self.old.faults self.new.faults × (self.new.last ≡ Some name.now) }
        ensures quiet { OnOk result ((self.new.faults ≡ self.old.faults) × (self.new.last ≡ self.old.last)) }
        ensures quiet_memory { IsErrOf result ShelfFault.Memory
            → (self.new.faults ≡ self.old.faults) × (self.new.last ≡ self.old.last) }
        ensures counted { self.old.faults ≤ self.new.faults }

        // A failure is counted once, and what is given whole is within the limit.
        ensures lost { IsErrOf result ShelfFault.Failed
            → self.new ≡ record { faults = next_count self.old.faults; last = Some name.now } }
        ensures within { IfOk result (IsWithin limit) }

        // What is given was read from a file that was opened.
        ensures read { IfOk result (λ fetched. (file : R.File)
            × IfSome (R.File.remaining file) (λ text. IsReadOf text limit fetched)) }
    {
        let Ok(own) = String::from_str(alloc, name) else {
            return Err(ShelfFault::Memory);
        };
        let fetched = read_file(self.rt, alloc, name, limit);
        if let Err(ShelfFault::Failed) = fetched {
            self.faults = self.faults.saturating_add(1);
            self.last = Some(own);
        }
        fetched
    }
}

#[cfg(test)]
mod tests {
    use super::*;
    use std::test::Fail;

    const PATH: &str = "outside_io_host_shelf_test.txt";

    #[test]
    fn fetches_a_file_within_the_limit(rt: HostRuntime) -> Result<(), Fail> {
        let mut shelf = HostShelf::new(&rt);
        let missing = shelf.fetch(rt.alloc(), PATH, 9);
        assert!(rt; matches!(&missing, Err(ShelfFault::Failed)));
        assert_eq!(rt; shelf.faults, 1);
        assert!(rt; matches!(&shelf.last, Some(name) if name.as_str() == PATH));

        let mut text = vec![in rt.alloc(); b'a'; 5000]?;
        text.extend_from_slice(b"z".as_slice())?;
        fs::write(&rt, PATH, text.as_slice())?;
        let below = shelf.fetch(rt.alloc(), PATH, 5000);
        let at = shelf.fetch(rt.alloc(), PATH, 5001);
        let above = shelf.fetch(rt.alloc(), PATH, usize::MAX);
        fs::remove_file(&rt, PATH)?;
        assert!(rt; matches!(&below, Ok(Fetched::TooLong)));
        assert!(rt; matches!(&at, Ok(Fetched::Whole(read)) if read.as_slice() == text.as_slice()));
        assert!(rt;
            matches!(&above, Ok(Fetched::Whole(read)) if read.as_slice() == text.as_slice())
        );
        assert_eq!(rt; shelf.faults, 1);
        Ok(())
    }
}

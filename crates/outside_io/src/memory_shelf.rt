//! A shelf in memory that tells what it holds, and fails where it is told to.
ghost use Rattle.std.specs.Prelude.{◌≡◌, ◌≢◌, ℕ, ◌≤◌, ◌↔◌, [], List, Some, None, IfOk, IsErrOf, MatchOption, OnErr, OnOk};
ghost use Rattle.outside_io.specs.Counts.{next_count};
ghost use Rattle.outside_io.specs.Outside.{Gives, Rose};
ghost use Rattle.outside_io.specs.Reading.{IsWithin};
ghost use Rattle.outside_io.specs.ShelfState.{ShelfState, FetchFails, shown, text_of};

use crate::listed::is_listed;
use crate::reading::copy_within;
use crate::shelf::{Fetched, Shelf, ShelfFault};
use std::alloc::{AllocError, Global};
use std::collections::BTreeMap;
use std::marker::Model;

/// Holds texts by their names, and fails at the fetches that are listed.
#[derive(Drop)]
pub struct MemoryShelf {
    alloc: Global,
    files: BTreeMap<String, Vec<u8>>,
    fails: Vec<u32>,
    fetches: u64,
    faults: u64,
    last: Option<String>,
}

impl Model for MemoryShelf {
    ghost use Rattle.std.specs.Prelude.{string_bytes};
    ghost use Rattle.std.specs.Option.{option_map};
    ghost use Rattle.outside_io.specs.ShelfState.{ShelfState, shown};

    ghost Value = { ShelfState };

    ghost view = { λ s. record {
      files = shown s.files.entries;
      failing = s.fails.items;
      fetches = s.fetches;
      faults = s.faults;
      last = option_map string_bytes s.last;
    } };
}

impl MemoryShelf {
    /// An empty shelf; the fetches in `fails` are numbered from 1.
    pub fn new(alloc: Global, fails: &[u32]) -> Result<MemoryShelf, AllocError>
        ensures { IfOk result (λ shelf. shelf
            ≡ record { files = []; failing = fails.now; fetches = 0; faults = 0; last = None }) }
    {
        let fails = Vec::from_slice(alloc, fails)?;
        Ok(MemoryShelf {
            alloc,
            files: BTreeMap::new(alloc),
            fails,
            fetches: 0,
            faults: 0,
            last: None,
        })
    }

    /// Puts the text under the name, in place of one that stood there.
    pub fn add(&mut self, name: &str, text: &[u8]) -> Result<(), AllocError>
        ensures added { OnOk result (text_of self.new.files name.now ≡ Some text.now) }
        ensures others { OnOk result ((other : List ℕ) → other ≢ name.now
            → text_of self.new.files other ≡ text_of self.old.files other) }
        ensures rest { OnOk result (self.new ≡ record self.old { files = self.new.files }) }
        ensures err { OnErr result (self.new ≡ self.old) }
    {
        let name = String::from_str(self.alloc, name)?;
        let text = Vec::from_slice(self.alloc, text)?;
        self.files.insert(name, text)?;
        Ok(())
    }
}

fn text_under<'a>(files: &'a BTreeMap<String, Vec<u8>>, name: &str) -> Option<&'a Vec<u8>>
    ensures { MatchOption result (text_of (shown files.now.entries) name.now ≡ None)
        (λ text. text_of (shown files.now.entries) name.now ≡ Some text.now.items) }
{
    files.get(name)
}

impl Shelf for MemoryShelf {
    ghost held = { λ s. Some (text_of s.files) };

    ghost faults = { λ s. s.faults };

    ghost last = { λ s. s.last };

    fn fetch(&mut self, alloc: Global, name: &str, limit: usize) -> Result<Fetched, ShelfFault>
        ensures given { IfOk result (λ fetched. Gives (text_of self.old.files) name.now limit fetched) }
        ensures within { IfOk result (IsWithin limit) }
        ensures failed { IsErrOf result ShelfFault.Failed
            → Rose self.old.faults self.new.faults × (self.new.last ≡ Some name.now) }
        ensures quiet { OnOk result ((self.new.faults ≡ self.old.faults) × (self.new.last ≡ self.old.last)) }
        ensures quiet_memory { IsErrOf result ShelfFault.Memory
            → (self.new.faults ≡ self.old.faults) × (self.new.last ≡ self.old.last) }
        ensures kept { Some (text_of self.new.files) ≡ Some (text_of self.old.files) }
        ensures counted { self.old.faults ≤ self.new.faults }

        // Which fetches fail, and that each is counted.
        ensures succeeds { OnOk result (¬ FetchFails self.old name.now) }
        ensures fails { IsErrOf result ShelfFault.Failed → FetchFails self.old name.now }
        ensures fetched { OnOk result (self.new ≡ record self.old { fetches = next_count self.old.fetches }) }
        ensures memory { IsErrOf result ShelfFault.Memory
            → self.new ≡ record self.old { fetches = next_count self.old.fetches } }
        ensures lost { IsErrOf result ShelfFault.Failed
            → self.new ≡ record self.old {
              fetches = next_count self.old.fetches;
              faults = next_count self.old.faults;
              last = Some name.now;
            } }
    {
        self.fetches = self.fetches.saturating_add(1);
        let Ok(own) = String::from_str(alloc, name) else {
            return Err(ShelfFault::Memory);
        };
        if !is_listed(self.fails.as_slice(), self.fetches) {
            if let Some(text) = text_under(&self.files, name) {
                return copy_within(alloc, text.as_slice(), limit);
            }
        }
        self.faults = self.faults.saturating_add(1);
        self.last = Some(own);
        Err(ShelfFault::Failed)
    }
}

#[cfg(test)]
mod tests {
    use super::*;
    use std::test::Fail;

    #[test]
    fn fetches_what_was_added_last(rt: HostRuntime) -> Result<(), Fail> {
        let mut shelf = MemoryShelf::new(rt.alloc(), &[6])?;
        shelf.add("a.py", b"old text".as_slice())?;
        shelf.add("b.py", b"".as_slice())?;
        shelf.add("a.py", b"x=1".as_slice())?;
        let fetches = [
            ("a.py", 3),
            ("a.py", 2),
            ("a.py", 4),
            ("b.py", 0),
            ("c.py", 9),
            ("a.py", 3),
            ("a.py", 3),
        ];
        let gives = ["x=1", "too long", "x=1", "", "failed", "failed", "x=1"];
        for ((name, limit), expected) in fetches.iter().zip(gives) {
            match shelf.fetch(rt.alloc(), name, *limit) {
                Ok(Fetched::Whole(text)) => assert_eq!(rt; text.as_slice(), expected.as_bytes()),
                Ok(Fetched::TooLong) => assert_eq!(rt; expected, "too long"),
                Err(ShelfFault::Failed) => assert_eq!(rt; expected, "failed"),
                Err(ShelfFault::Memory) => assert_eq!(rt; expected, "memory"),
            }
        }
        assert_eq!(rt; shelf.fetches, 7);
        assert_eq!(rt; shelf.faults, 2);
        assert!(rt; matches!(&shelf.last, Some(name) if name.as_str() == "a.py"));
        Ok(())
    }
}

//! A table of rows, and the ids that are their places.
ghost use Rattle.std.specs.Prelude.{◌≡◌, ◌-◌, ◌^◌, ◌↔◌, [], ◌∷◌, ◌++◌, length, slice_get, IsErrOf, IfOk, OnOk, OnErr};
ghost use Rattle.std.specs.Option.{option_copied};

use crate::Id;
use std::alloc::Global;
use std::marker::{Model, PhantomData};

/// Why a row was not taken.
#[derive(Clone, Copy, Debug, PartialEq, Eq)]
pub enum PushFault {
    /// The table has 2^32 - 1 rows.
    Full,
    Memory,
}

/// Rows under ids that number them from 0, which contracts see as the list of the rows.
#[derive(Debug, Drop)]
pub struct Table<I: Id, T> {
    rows: Vec<T>,
    ids: PhantomData<I>,
}

impl<I: Id, T> Model for Table<I, T> {
    ghost use Rattle.std.specs.Prelude.{List, ◌-◌, ◌^◌, ◌≤◌, length};
    ghost use Rattle.std.specs.Coded.{coded_list};

    ghost Value = { List T };

    ghost coded = { coded_list T.code };

    ghost view = { λ table. table.rows.items };

    ghost invariant = { λ table. length table.rows.items ≤ 2 ^ 32 - 1 };
}

impl<I: Id, T> Table<I, T> {
    /// A table with no rows. It takes no memory.
    pub fn new(alloc: Global) -> Table<I, T>
        ensures { result ≡ [] }
    {
        Table {
            rows: Vec::new(alloc),
            ids: PhantomData,
        }
    }

    /// The row under an id, if the table has one there.
    pub fn get(&self, id: I) -> Option<&T>
        ensures { option_copied result ≡ slice_get self.now (I.value id) }
    {
        self.rows.get(id.number() as usize)
    }

    pub fn len(&self) -> u32
        ensures { result ≡ length self.now }
    {
        self.rows.len() as u32
    }
}

impl<I: Id, T: Drop> Table<I, T> {
    /// Puts a row at the end, and answers its id. A row that is refused is dropped.
    pub fn push(&mut self, row: T) -> Result<I, PushFault>
        ensures pushed { OnOk result (self.new ≡ self.old ++ row ∷ []) }
        ensures numbered { IfOk result (λ id. I.value id ≡ length self.old) }
        ensures full { IsErrOf result PushFault.Full ↔ (length self.old ≡ 2 ^ 32 - 1) }
        ensures refused { OnErr result (self.new ≡ self.old) }
    {
        let number = self.len();
        if number == u32::MAX {
            return Err(PushFault::Full);
        }
        match self.rows.push(row) {
            Ok(()) => Ok(I::new(number)),
            Err(_) => Err(PushFault::Memory),
        }
    }
}

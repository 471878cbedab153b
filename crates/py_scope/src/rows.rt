//! Lists of plain rows.
ghost use Rattle.std.specs.Prelude.{◌≡◌, [], ◌∷◌, ◌++◌, OnOk, IfOk};

use std::alloc::{AllocError, Global};
use std::marker::Model;

/// Rows in order, which contracts see as their list.
#[derive(Debug, Drop)]
pub struct Rows<T> {
    items: Vec<T>,
}

impl<T> Model for Rows<T> {
    ghost use Rattle.std.specs.Prelude.{List};
    ghost use Rattle.std.specs.Coded.{coded_list};

    ghost Value = { List T };

    ghost coded = { coded_list T.code };

    ghost view = { λ rows. rows.items.items };
}

impl<T> Rows<T> {
    /// A list with no rows. It takes no memory.
    pub fn new(alloc: Global) -> Rows<T>
        ensures { result ≡ [] }
    {
        Rows {
            items: Vec::new(alloc),
        }
    }

    pub fn from_items(items: Vec<T>) -> Rows<T>
        ensures { result ≡ items.items }
    {
        Rows { items }
    }

    pub fn allocator(&self) -> Global {
        *self.items.allocator()
    }

    pub fn items(&self) -> &[T]
        ensures { result.now ≡ self.now }
    {
        self.items.as_slice()
    }
}

impl<T: Copy + Drop> Rows<T> {
    pub fn push(&mut self, row: T) -> Result<(), AllocError>
        ensures { OnOk result (self.new ≡ self.old ++ row ∷ []) }
    {
        self.items.push(row)?;
        Ok(())
    }

    pub fn copy(&self) -> Result<Rows<T>, AllocError>
        ensures { IfOk result (λ rows. rows ≡ self.now) }
    {
        let alloc = *self.items.allocator();
        let items = Vec::from_slice(alloc, self.items.as_slice())?;
        Ok(Rows { items })
    }
}

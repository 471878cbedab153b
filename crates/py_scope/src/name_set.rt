//! Sets of names.
ghost use Rattle.std.specs.Prelude.{◌≡◌, [], length, OnOk, IfOk};
ghost use Rattle.scope_rules.specs.NameLists as lists;
ghost use Rattle.scope_rules.specs.NameLists.{has_name, with_name_if, place_of};

use indexmap::IndexSet;
use place_ids::NameId;
use std::alloc::{AllocError, Global};
use std::marker::Model;

/// Names in the order in which they came, each once.
#[derive(Debug, Drop)]
pub struct NameSet {
    names: IndexSet<NameId>,
}

impl Model for NameSet {
    ghost use Rattle.std.specs.Prelude.{List, ℕ, ◌-◌, ◌^◌, ◌≤◌, length};

    ghost Value = { List ℕ };

    ghost view = { λ set. set.names.keys };

    ghost invariant = { λ set. length set.names.keys ≤ 2 ^ 32 - 1 };
}

impl NameSet {
    /// A set with no names. It takes no memory.
    pub fn new(alloc: Global) -> NameSet
        ensures { result ≡ [] }
    {
        NameSet {
            names: IndexSet::new(alloc),
        }
    }

    /// Puts a name at the end if it is new.
    pub fn insert(&mut self, name: NameId) -> Result<(), AllocError>
        ensures { OnOk result (self.new ≡ lists.with_name self.old name) }
    {
        if self.names.len() as u64 >= u32::MAX as u64 {
            return Err(AllocError);
        }
        self.names.insert(name)?;
        Ok(())
    }

    /// Inserts a name in one case alone.
    pub fn insert_if(&mut self, really: bool, name: NameId) -> Result<(), AllocError>
        ensures { OnOk result (self.new ≡ with_name_if really self.old name) }
    {
        if really {
            self.insert(name)?;
        }
        Ok(())
    }

    pub fn items(&self) -> &[NameId]
        ensures { result.now ≡ self.now }
    {
        self.names.as_slice()
    }

    /// How many names there are.
    pub fn count(&self) -> u32
        ensures { result ≡ length self.now }
    {
        self.names.len() as u32
    }

    pub fn contains(&self, name: NameId) -> bool
        ensures { result ≡ has_name self.now name }
    {
        self.names.contains(&name)
    }

    /// The place of a name, if it is in the set.
    pub fn place(&self, name: NameId) -> Option<u32>
        ensures { result ≡ place_of self.now name }
    {
        let place = self.names.get_index_of(&name)?;
        Some(place as u32)
    }

    /// The same names at the same places.
    pub fn copy(&self) -> Result<NameSet, AllocError>
        ensures { IfOk result (λ set. set ≡ self.now) }
    {
        let names = self.names.clone()?;
        Ok(NameSet { names })
    }
}

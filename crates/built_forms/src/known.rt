//! The names that a module has assigned so far.
ghost use Rattle.std.specs.Prelude.{◌≡◌, [], OnOk};
ghost use Rattle.built_forms.specs.Known as spec;
ghost use Rattle.built_forms.specs.Known.{is_known, with_name};

use indexmap::IndexSet;
use place_ids::NameId;
use std::alloc::{AllocError, Global};
use std::marker::Model;

/// Names in the order in which they came, each once.
#[derive(Debug, Drop)]
pub(crate) struct Known {
    names: IndexSet<NameId>,
}

impl Model for Known {
    ghost use Rattle.std.specs.Prelude.{List, ℕ};

    ghost Value = { List ℕ };

    ghost view = { λ known. known.names.keys };
}

impl Known {
    /// No names. It takes no memory.
    pub fn new(alloc: Global) -> Known
        ensures { result ≡ [] }
    {
        Known {
            names: IndexSet::new(alloc),
        }
    }

    pub fn contains(&self, name: NameId) -> bool
        ensures { result ≡ is_known self.now name }
    {
        self.names.contains(&name)
    }

    /// Puts a name at the end if it is new.
    pub fn insert(&mut self, name: NameId) -> Result<(), AllocError>
        ensures { OnOk result (self.new ≡ with_name self.old name) }
    {
        self.names.insert(name)?;
        Ok(())
    }

    /// The same of a name that there may be.
    pub fn insert_option(&mut self, name: Option<NameId>) -> Result<(), AllocError>
        ensures { OnOk result (self.new ≡ spec.with_option self.old name) }
    {
        match name {
            Some(name) => self.insert(name),
            None => Ok(()),
        }
    }
}

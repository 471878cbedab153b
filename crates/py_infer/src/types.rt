//! The types of names, in the order of the names' bytes.
ghost use Rattle.std.specs.Prelude.{◌≡◌, ℕ, [], List, map, IfOk, OnOk, Some, if◌then◌else◌};
ghost use Rattle.std.specs.Cmp.Lexicographic.{slice_cmp};
ghost use Rattle.std.specs.List.Sorted.{IsStrictlySortedBy};
ghost use Rattle.std.specs.Map.{lookup};
ghost use Rattle.std.specs.Ordering.{nat_cmp};
ghost use Rattle.std.specs.Str.{bytes_eq};
ghost use Rattle.type_terms.specs.Stubs.{name_view, stub_view};
ghost use Rattle.py_infer.specs.Stubs.{name_of, names_of, stub_of, type_in};

use crate::plain_type::PlainType;
use place_ids::{Sequence, Text};
use std::alloc::{AllocError, Global};
use std::collections::BTreeMap;
use std::marker::Model;
use type_terms::{Stub, StubName};

/// The type of each name. Contracts see the names with their types, in the order of the names' bytes.
#[derive(Drop)]
pub struct Types {
    alloc: Global,
    types: BTreeMap<String, PlainType>,
}

impl Model for Types {
    ghost use Rattle.py_infer.specs.Stubs.{Rows, rows_of};

    ghost Value = { Rows };

    ghost view = { λ t. rows_of t.types.entries };
}

impl Types {
    /// No types. It takes no memory.
    pub fn new(alloc: Global) -> Types
        ensures { result ≡ [] }
    {
        Types {
            alloc,
            types: BTreeMap::new(alloc),
        }
    }

    /// The type of a name.
    pub fn get(&self, name: &str) -> Option<PlainType>
        ensures { result ≡ type_in self.now name.now }
    {
        self.types.get(name).copied()
    }

    /// Gives a name a type, in place of one that it has.
    pub fn set(&mut self, name: &str, plain_type: PlainType) -> Result<(), AllocError>
        ensures set { OnOk result ((other : List ℕ) → type_in self.new other ≡ (if bytes_eq name.now other then Some plain_type else type_in self.old other)) }
        ensures ordered { OnOk result (IsStrictlySortedBy (slice_cmp nat_cmp) (names_of self.new)) }
    {
        let own = String::from_str(self.alloc, name)?;
        self.types.insert(own, plain_type)?;
        Ok(())
    }

    /// The stub, which declares each name.
    pub fn stub(&self) -> Result<Stub, AllocError>
        ensures { IfOk result (λ stub. stub_view stub ≡ stub_of self.now) }
    {
        Ok(Stub {
            names: self.names()?,
            funs: Sequence::new(self.alloc),
            classes: Sequence::new(self.alloc),
        })
    }

    // The names, each with its type's term.
    fn names(&self) -> Result<Sequence<StubName>, AllocError>
        ensures { IfOk result (λ names. map name_view names ≡ map name_of self.now) }
    {
        let mut names = Sequence::new(self.alloc);
        for (name, plain_type) in &self.types {
            names.push(stub_name(self.alloc, name.as_bytes(), *plain_type)?)?;
        }
        Ok(names)
    }
}

fn stub_name(alloc: Global, name: &[u8], plain_type: PlainType) -> Result<StubName, AllocError>
    ensures { IfOk result (λ own. name_view own ≡ name_of (name.now, plain_type)) }
{
    let mut own = Text::new(alloc);
    own.push(name)?;
    Ok(StubName {
        name: own,
        term: plain_type.term(),
    })
}

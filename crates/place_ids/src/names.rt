//! A table of names, each text once.
ghost use Rattle.std.specs.Prelude.{◌≡◌, ℕ, ◌-◌, ◌^◌, ◌↔◌, Some, false, [], ◌∷◌, ◌++◌, length, slice_get, IsErrOf, IsOk, IsTrue, IfOk, IfSome, OnOk, OnErr};
ghost use Rattle.std.specs.Option.{option_copied};
ghost use Rattle.place_ids.specs.Names.{has_name, number_in, with_name};

use crate::{Id, NameId, PushFault};
use indexmap::IndexSet;
use std::alloc::{AllocError, Global};
use std::marker::Model;

/// Texts under ids that number them from 0, in the order in which they came. Contracts see the list of their bytes.
#[derive(Debug, Drop)]
pub struct Names {
    texts: IndexSet<String>,
}

impl Model for Names {
    ghost use Rattle.std.specs.Prelude.{List, ℕ, ◌-◌, ◌^◌, ◌≤◌, length, map};
    ghost use Rattle.std.specs.List.{IsDistinct};
    ghost use Rattle.std.specs.Str.{bytes_eq};
    ghost use Rattle.std.specs.String.{string_bytes};

    ghost Value = { List (List ℕ) };

    ghost view = { λ names. map string_bytes names.texts.keys };

    ghost invariant = { λ names. IsDistinct bytes_eq (map string_bytes names.texts.keys) × (length names.texts.keys ≤ 2 ^ 32 - 1) };
}

impl Names {
    /// A table with no names. It takes no memory.
    pub fn new(alloc: Global) -> Names
        ensures { result ≡ [] }
    {
        Names {
            texts: IndexSet::new(alloc),
        }
    }

    /// The id of a text, which is put at the end if it is new. A text that is there already takes no memory.
    pub fn intern(&mut self, text: &str) -> Result<NameId, PushFault>
        ensures interned { OnOk result (self.new ≡ with_name self.old text.now) }
        ensures numbered { IfOk result (λ id. id ≡ number_in self.old text.now) }
        ensures named { IfOk result (λ id. slice_get self.new id ≡ Some text.now) }
        ensures full { IsErrOf result PushFault.Full ↔ ((has_name self.old text.now ≡ false) × (length self.old ≡ 2 ^ 32 - 1)) }
        ensures refused { OnErr result (self.new ≡ self.old) }

        // Only a new text can be refused.
        ensures known { IsTrue (has_name self.old text.now) → IsOk result }
    {
        match self.find(text) {
            Some(id) => Ok(id),
            None => self.add(text),
        }
    }

    /// The id of a text, if it is one of the names.
    pub fn find(&self, text: &str) -> Option<NameId>
        ensures found { IfSome result (λ id. slice_get self.now id ≡ Some text.now) }
        ensures every { (id : ℕ) → slice_get self.now id ≡ Some text.now → result ≡ Some id }
    {
        let place = self.texts.get_index_of(text)?;
        Some(NameId::new(place as u32))
    }

    /// The text under an id, if there is one.
    pub fn text(&self, id: NameId) -> Option<&str>
        ensures { option_copied result ≡ slice_get self.now id }
    {
        let text = self.texts.get_index(id.number() as usize)?;
        Some(text.as_str())
    }

    /// The same texts under the same ids.
    pub fn copy(&self) -> Result<Names, AllocError>
        ensures { IfOk result (λ names. names ≡ self.now) }
    {
        let texts = self.texts.clone()?;
        Ok(Names { texts })
    }

    // Puts a text at the end that isn't there yet.
    fn add(&mut self, text: &str) -> Result<NameId, PushFault>
        requires { has_name self.old text.now ≡ false }
        ensures interned { OnOk result (self.new ≡ self.old ++ text.now ∷ []) }
        ensures numbered { IfOk result (λ id. id ≡ length self.old) }
        ensures full { IsErrOf result PushFault.Full ↔ (length self.old ≡ 2 ^ 32 - 1) }
        ensures refused { OnErr result (self.new ≡ self.old) }
    {
        let number = self.texts.len() as u32;
        if number == u32::MAX {
            return Err(PushFault::Full);
        }
        let alloc = *self.texts.allocator();
        let Ok(owned) = String::from_str(alloc, text) else {
            return Err(PushFault::Memory);
        };
        match self.texts.insert(owned) {
            Ok(_) => Ok(NameId::new(number)),
            Err(_) => Err(PushFault::Memory),
        }
    }
}

//! What is kept of a class.
ghost use Rattle.std.specs.Prelude.{◌≡◌, IfOk, slice_get};
ghost use Rattle.std.specs.Option.{option_and_then, option_copied};

use crate::methods::Methods;
use crate::name_set::NameSet;
use place_ids::{ClassId, NameId};
use std::alloc::AllocError;

#[derive(Debug, Drop)]
pub struct KeptClass {
    pub name: NameId,
    pub id: ClassId,
    /// The place of the base, if it is one of the classes before.
    pub base: Option<usize>,
    /// The builtin exception class at the end of the chain, by its place among them.
    pub native: Option<u32>,
    /// The names that the body binds.
    pub bound: NameSet,
    pub methods: Methods,
}

impl KeptClass {
    pub fn copy(&self) -> Result<KeptClass, AllocError>
        ensures { IfOk result (λ class. class ≡ self.now) }
    {
        let bound = self.bound.copy()?;
        let methods = self.methods.copy()?;
        Ok(KeptClass {
            name: self.name,
            id: self.id,
            base: self.base,
            native: self.native,
            bound,
            methods,
        })
    }
}

/// The class at a place, if there is a place.
pub(crate) fn class_at(classes: &[KeptClass], place: Option<usize>) -> Option<&KeptClass>
    ensures { option_copied result ≡ option_and_then (slice_get classes.now) place }
{
    classes.get(place?)
}

//! What a module's names stand for.
ghost use Rattle.std.specs.Prelude.{◌≡◌, ◌++◌, length, option_map, slice_get, OnOk, IfOk};
ghost use Rattle.scope_rules.specs.NameLists.{has_name};
ghost use Rattle.scope_rules.specs.Scoped as spec;

use crate::chain::Chain;
use crate::classes::Classes;
use crate::name_set::NameSet;
use crate::rows::Rows;
use place_ids::{ClassId, FunId, Id, NameId};
use py_tree::NativeName;
use std::alloc::AllocError;
use std::marker::Model;
use type_terms::exception_at;

/// What the names of a module, of its functions and of its classes stand for.
#[derive(Debug, Drop)]
pub struct Scopes {
    pub(crate) bound: NameSet,
    pub(crate) stored: NameSet,
    pub(crate) printed: Rows<NameId>,
    pub(crate) locals: Vec<NameSet>,
    pub(crate) classes: Classes,
}

impl Model for Scopes {
    ghost use Rattle.scope_rules.specs.Scoped.{Scoped};

    ghost Value = { Scoped };

    ghost view = { λ s. record { bound = s.bound; stored = s.stored; printed = s.printed; locals = s.locals.items; classes = s.classes } };
}

impl Scopes {
    /// The class and its bases, from the nearest on. There are none for an unknown number.
    pub fn chain(&self, class: ClassId) -> Chain<'_>
        ensures { result ≡ spec.chain self.now class }
    {
        self.classes.chain(class)
    }

    /// The number of a name among those that a function binds: its parameters come first.
    pub fn local(&self, fun: FunId, name: NameId) -> Option<u32>
        ensures { result ≡ spec.local self.now fun name }
    {
        let names = self.locals.get(fun.number() as usize)?;
        names.place(name)
    }

    /// How many names a function binds, its parameters among them.
    pub fn local_count(&self, fun: FunId) -> Option<u32>
        ensures { result ≡ option_map length (slice_get self.now.locals fun) }
    {
        let row = self.locals.get(fun.number() as usize)?;
        Some(row.count())
    }

    /// Whether the module binds a name.
    pub fn bound(&self, name: NameId) -> bool
        ensures { result ≡ has_name self.now.bound name }
    {
        self.bound.contains(name)
    }

    /// The builtin exception class at the end of a class's chain.
    pub fn base_row(&self, class: ClassId) -> Option<NativeName>
        ensures { option_map (λ native. native.text.now) result ≡ spec.base_row self.now class }
    {
        let number = self.classes.native(class)?;
        let text = exception_at(number)?;
        Some(NativeName { text })
    }

    /// The method of a name in a class's own body.
    pub fn method(&self, class: ClassId, name: NameId) -> Option<FunId>
        ensures { result ≡ spec.method self.now class name }
    {
        self.classes.method(class, name)
    }

    /// Whether a class's own body binds a name.
    pub fn binds(&self, class: ClassId, name: NameId) -> bool
        ensures { result ≡ spec.binds self.now class name }
    {
        self.classes.binds(class, name)
    }

    /// Whether the module stores anywhere to an attribute of a name.
    pub fn stored(&self, name: NameId) -> bool
        ensures { result ≡ has_name self.now.stored name }
    {
        self.stored.contains(name)
    }

    /// The names that a stub prints for themselves, sorted by the bytes of their texts.
    pub fn printed(&self) -> &[NameId]
        ensures { result.now ≡ self.now.printed }
    {
        self.printed.items()
    }

    /// The same scopes.
    pub fn copy(&self) -> Result<Scopes, AllocError>
        ensures { IfOk result (λ scopes. scopes ≡ self.now) }
    {
        let bound = self.bound.copy()?;
        let stored = self.stored.copy()?;
        let printed = self.printed.copy()?;
        let locals = copy_sets(&self.locals)?;
        let classes = self.classes.copy()?;
        Ok(Scopes {
            bound,
            stored,
            printed,
            locals,
            classes,
        })
    }
}

fn copy_sets(sets: &Vec<NameSet>) -> Result<Vec<NameSet>, AllocError>
    ensures { IfOk result (λ copies. copies.items ≡ sets.now.items) }
{
    let alloc = *sets.allocator();
    let mut copies = Vec::new(alloc);
    put_sets(sets.as_slice(), &mut copies)?;
    Ok(copies)
}

#[tactic(auto, using(std::proofs::Common::append_assoc))]
fn put_sets(sets: &[NameSet], copies: &mut Vec<NameSet>) -> Result<(), AllocError>
    ensures { OnOk result (copies.new.items ≡ copies.old.items ++ sets.now) }
{
    for set in sets {
        let copy = set.copy()?;
        copies.push(copy)?;
    }
    Ok(())
}

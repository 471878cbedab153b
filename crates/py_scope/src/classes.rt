//! The classes of a module.
ghost use Rattle.std.specs.Prelude.{◌≡◌, ◌++◌, [], slice_get, Some, IfOk, OnOk};
ghost use Rattle.std.specs.Option.{option_and_then};
ghost use Rattle.py_scope.specs.KeptClasses.{told_from, HaveBasesBefore};
ghost use Rattle.scope_rules.specs.Scoped.{binds_in};
ghost use Rattle.scope_rules.specs.Tables.{chain_in, method_named};
ghost use Rattle.type_terms.specs.Exceptions.{exception_names};

use crate::chain::Chain;
use crate::kept_class::{KeptClass, class_at};
use place_ids::{ClassId, FunId, Id, NameId};
use std::alloc::AllocError;
use std::marker::Model;

/// Classes in their order, each with the place of its base, so that chains share their ends.
#[derive(Debug, Drop)]
pub struct Classes {
    rows: Vec<KeptClass>,
}

impl Model for Classes {
    ghost use Rattle.std.specs.Prelude.{List, []};
    ghost use Rattle.scope_rules.specs.Tables.{ClassScope};
    ghost use Rattle.py_scope.specs.KeptClasses.{told_from, HaveBasesBefore};

    ghost Value = { List ClassScope };

    ghost view = { λ classes. told_from [] classes.rows.items };

    ghost invariant = { λ classes. HaveBasesBefore classes.rows.items };
}

impl Classes {
    pub fn new(rows: Vec<KeptClass>) -> Classes
        requires { HaveBasesBefore rows.items }
        ensures { result ≡ told_from [] rows.items }
    {
        Classes { rows }
    }

    /// The class and its bases, from the nearest on.
    pub fn chain(&self, class: ClassId) -> Chain<'_>
        ensures { result ≡ chain_in (slice_get self.now class) }
    {
        Chain::new(self.rows.as_slice(), place_of(class))
    }

    /// The builtin exception class at the end of a class's chain, by its place among them.
    pub fn native(&self, class: ClassId) -> Option<u32>
        ensures { option_and_then (slice_get exception_names) result ≡ option_and_then (λ row. row.native) (slice_get self.now class) }
    {
        match class_at(self.rows.as_slice(), place_of(class)) {
            Some(row) => row.native,
            None => None,
        }
    }

    pub fn method(&self, class: ClassId, name: NameId) -> Option<FunId>
        ensures { result ≡ option_and_then (λ row. method_named row.methods name) (slice_get self.now class) }
    {
        match class_at(self.rows.as_slice(), place_of(class)) {
            Some(row) => row.methods.named(name),
            None => None,
        }
    }

    pub fn binds(&self, class: ClassId, name: NameId) -> bool
        ensures { result ≡ binds_in (slice_get self.now class) name }
    {
        match class_at(self.rows.as_slice(), place_of(class)) {
            Some(row) => row.bound.contains(name),
            None => false,
        }
    }

    pub fn copy(&self) -> Result<Classes, AllocError>
        ensures { IfOk result (λ classes. classes ≡ self.now) }
    {
        let rows = copy_rows(&self.rows)?;
        Ok(Classes { rows })
    }
}

fn place_of(class: ClassId) -> Option<usize>
    ensures { result ≡ Some class }
{
    Some(class.number() as usize)
}

fn copy_rows(rows: &Vec<KeptClass>) -> Result<Vec<KeptClass>, AllocError>
    ensures { IfOk result (λ copies. copies.items ≡ rows.now.items) }
{
    let alloc = *rows.allocator();
    let mut copies = Vec::new(alloc);
    put_rows(rows.as_slice(), &mut copies)?;
    Ok(copies)
}

#[tactic(auto, using(std::proofs::Common::append_assoc))]
fn put_rows(rows: &[KeptClass], copies: &mut Vec<KeptClass>) -> Result<(), AllocError>
    ensures { OnOk result (copies.new.items ≡ copies.old.items ++ rows.now) }
{
    for row in rows {
        let copy = row.copy()?;
        copies.push(copy)?;
    }
    Ok(())
}

//! A class and its bases.
ghost use Rattle.std.specs.Prelude.{◌≡◌, []};
ghost use Rattle.py_scope.specs.KeptClasses.{told_from, base_in, HaveBasesBefore};
ghost use Rattle.scope_rules.specs.Tables.{chain_in};

use crate::kept_class::{KeptClass, class_at};
use place_ids::ClassId;
use std::marker::Model;

/// Goes over a class and its bases, from the nearest on.
#[derive(Debug, Drop)]
pub struct Chain<'a> {
    rows: &'a [KeptClass],
    place: Option<usize>,
}

impl<'a> Model for Chain<'a> {
    ghost use Rattle.std.specs.Prelude.{List, ℕ, []};
    ghost use Rattle.py_scope.specs.KeptClasses.{told_from, base_in, HaveBasesBefore};
    ghost use Rattle.scope_rules.specs.Tables.{chain_in};

    ghost Value = { List ℕ };

    ghost view = { λ chain. chain_in (base_in (told_from [] chain.rows.now) chain.place) };

    ghost invariant = { λ chain. HaveBasesBefore chain.rows.now };
}

impl<'a> Chain<'a> {
    pub(crate) fn new(rows: &'a [KeptClass], place: Option<usize>) -> Chain<'a>
        requires { HaveBasesBefore rows.now }
        ensures { result ≡ chain_in (base_in (told_from [] rows.now) place) }
    {
        Chain { rows, place }
    }
}

impl<'a> Iterator for Chain<'a> {
    type Item = ClassId;

    ghost use Rattle.std.specs.Iterator.{YieldsFirst, item_count};

    ghost next_gives = { YieldsFirst (λ chain. chain) };

    ghost remaining = { item_count (λ chain. chain) };

    fn next(&mut self) -> Option<ClassId> {
        match class_at(self.rows, self.place) {
            Some(class) => {
                self.place = class.base;
                Some(class.id)
            }
            None => None,
        }
    }
}

//! The spots of variables, under the variables' ids.
ghost use Rattle.std.specs.Prelude.{◌≡◌, ◌-◌, ◌^◌, ◌<◌, ◌≤◌, List, [], ◌∷◌, ◌++◌, None, Some, length, slice_get, IfSome, OnOk, OnErr};
ghost use Rattle.std.specs.List.{Contains};
ghost use Rattle.world_tables.specs.declared.spot.VariableSpot.{VariableSpot as Spot};

use crate::VariableSpot;
use indexmap::IndexSet;
use place_ids::{Id, VarId};
use std::alloc::{AllocError, Global};
use std::marker::Model;

/// Spots under ids that number them from 0.
#[derive(Debug, Drop)]
pub struct Variables {
    spots: IndexSet<VariableSpot>,
}

impl Model for Variables {
    ghost use Rattle.std.specs.Prelude.{List, length, ◌≤◌, ◌-◌, ◌^◌};
    ghost use Rattle.world_tables.specs.declared.spot.VariableSpot.{VariableSpot};

    ghost Value = { List VariableSpot };

    ghost view = { λ variables. variables.spots.keys };

    ghost invariant = { λ variables. length variables.spots.keys ≤ 2 ^ 32 - 1 };
}

impl Variables {
    pub fn new(alloc: Global) -> Variables
        ensures { result ≡ [] }
    {
        Variables {
            spots: IndexSet::new(alloc),
        }
    }

    pub fn len(&self) -> u32
        ensures count { result ≡ length self.now }
        ensures few { length self.now ≤ 2 ^ 32 - 1 }
    {
        self.spots.len() as u32
    }

    /// The spot of a variable, if there is one.
    pub fn get(&self, id: VarId) -> Option<VariableSpot>
        ensures { result ≡ slice_get self.now id }
    {
        self.spots.get_index(id.number() as usize).copied()
    }

    /// The variable at a spot, if there is one.
    pub fn find(&self, spot: &VariableSpot) -> Option<VarId>
        ensures found { IfSome result (λ id. slice_get self.now id ≡ Some spot.now) }
        ensures none { result ≡ None → Contains self.now spot.now → ⊥ }
    {
        match self.spots.get_index_of(spot) {
            Some(place) => Some(VarId::new(place as u32)),
            None => None,
        }
    }

    /// Gives a new spot the next id.
    pub fn push(&mut self, spot: &VariableSpot) -> Result<(), AllocError>
        requires room { length self.old < 2 ^ 32 - 1 }
        requires fresh { Contains self.old spot.now → ⊥ }
        ensures pushed { OnOk result (self.new ≡ self.old ++ spot.now ∷ []) }
        ensures refused { OnErr result (self.new ≡ self.old) }
    {
        match self.spots.insert(*spot) {
            Ok(_) => Ok(()),
            Err(_) => Err(AllocError),
        }
    }

    /// Takes back the spot that was given the last id.
    pub fn pop(&mut self)
        ensures { (spots : List Spot) (spot : Spot) → self.old ≡ spots ++ spot ∷ [] → self.new ≡ spots }
    {
        let _last = self.spots.pop();
    }
}

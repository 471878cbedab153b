//! The types of places that were made before.
ghost use Rattle.std.specs.Prelude.{IfSome, OnOk};
ghost use Rattle.abstract_shapes.specs.Kept.{AreKept};
ghost use Rattle.abstract_shapes.specs.Printed.{IsPrinted, Scene};
ghost use Rattle.type_terms.specs.View.{term_view};

use crate::Place;
use indexmap::IndexMap;
use std::alloc::{AllocError, Global};
use type_terms::TypeTerm;

/// A place, and a depth at which its type is printed.
#[derive(Clone, Copy, Debug, PartialEq, Eq, Hash)]
pub(crate) struct PlaceAtDepth {
    pub(crate) place: Place,
    pub(crate) depth: u32,
}

/// Each type that was made for a place at a depth.
#[derive(Drop)]
pub(crate) struct KeptTypes {
    pub(crate) types: IndexMap<PlaceAtDepth, TypeTerm>,
}

impl KeptTypes {
    pub(crate) fn new(alloc: Global) -> KeptTypes
        ensures { (scene : Scene) → AreKept scene result }
    {
        KeptTypes {
            types: IndexMap::new(alloc),
        }
    }

    pub(crate) fn find(&self, place: Place, depth: u32) -> Option<&TypeTerm>
        ensures { IfSome result (λ made. (scene : Scene) → AreKept scene self.now → IsPrinted scene depth (scene.joined place) (term_view made.now)) }
    {
        self.types.get(&PlaceAtDepth { place, depth })
    }

    pub(crate) fn keep(
        &mut self,
        place: Place,
        depth: u32,
        made: TypeTerm,
    ) -> Result<(), AllocError>
        ensures { OnOk result ((scene : Scene) → AreKept scene self.old → IsPrinted scene depth (scene.joined place) (term_view made) → AreKept scene self.new) }
    {
        match self.types.insert(PlaceAtDepth { place, depth }, made) {
            Ok(_) => Ok(()),
            Err(_) => Err(AllocError),
        }
    }
}

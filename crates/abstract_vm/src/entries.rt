//! Entries that are added to the joined tables of a world.
ghost use Rattle.std.specs.Prelude.{◌≡◌, ℕ, ◌<◌, length};
ghost use Rattle.std.specs.List.{All, Contains};
ghost use Rattle.world_rules.specs.Places.{Point};
ghost use Rattle.world_rules.specs.Rules.{GivesAt};
ghost use Rattle.abstract_vm.specs.Worlds.{items_in};
ghost use Rattle.abstract_vm.specs.Steps.{entry_in, IsStep, IsOneOf};

use crate::World;
use abstract_shapes::Place;
use place_ids::ShapeId;
use std::alloc::AllocError;

impl World {
    // Adds an entry, and answers whether it is new.
    fn add_entry(&mut self, place: Place, shape: ShapeId) -> Result<bool, AllocError>
        requires { shape < length self.old.rows.graph.truths }
        ensures { (p : Point) → IsStep (λ s. GivesAt s (items_in self.old) p (entry_in self.old place shape)) p (λ s i. i ≡ entry_in self.old place shape) result self.old self.new }
    {
        self.tables.add_entry(place, shape)
    }

    /// Adds an entry for each of the shapes, and answers whether one is new.
    pub(crate) fn add_entries(
        &mut self,
        place: &Place,
        shapes: &[ShapeId],
    ) -> Result<bool, AllocError>
        requires { All (λ id. id < length self.old.rows.graph.truths) shapes.now }
        ensures { (p : Point) → IsStep (λ s. (id : ℕ) → Contains shapes.now id → GivesAt s (items_in self.old) p (entry_in self.old place.now id)) p
            (λ s. IsOneOf (λ id i. i ≡ entry_in self.old place.now id) shapes.now) result self.old self.new }
    {
        let mut grown = false;
        for shape in shapes {
            let more = self.add_entry(*place, *shape)?;
            grown |= more;
        }
        Ok(grown)
    }
}

//! The shapes that rules give.
ghost use Rattle.std.specs.Prelude.{◌≡◌, ◌↔◌, ℕ, ◌<◌, Some, List, [], length, slice_get, option_to_list, IsSome, IfOk};
ghost use Rattle.std.specs.List.{All, Contains};
ghost use Rattle.abstract_shapes.specs.Numbering.{structure, structures, IsOuter, IsThere};
ghost use Rattle.abstract_shapes.specs.Shapes.{Shape as ShapeValue};
ghost use Rattle.abstract_shapes.specs.Tables.{entries};
ghost use Rattle.world_rules.specs.Rows.{made};
ghost use Rattle.world_rules.specs.Sources.{Source};
ghost use Rattle.abstract_vm.specs.Worlds.{items_in, IsWorldOf};
ghost use Rattle.abstract_vm.specs.Steps.{shapes_in, AreYielded, IsOnlyNumber, NumbersStay};

use crate::World;
use abstract_shapes::{Place, Row, Shape};
use goal_solver::laws::sound_without_growth;
use place_ids::ShapeId;
use sqlite_items::Items;
use std::alloc::{AllocError, Global};
use world_rules::Yield;

impl World {
    /// The shapes that a rule gives, where these are read. A shape that had no number gets one, which adds no item.
    pub(crate) fn given(
        &mut self,
        read: &[ShapeId],
        given: Yield,
    ) -> Result<Items<ShapeId>, AllocError>
        requires { All (λ id. id < length self.old.rows.graph.truths) read.now }
        ensures stay { NumbersStay self.old self.new }
        ensures there { IfOk result (λ ids. All (λ id. id < length self.new.rows.graph.truths) ids) }
        ensures same { (s : Source) → IsWorldOf s self.old → IsWorldOf s self.new × (items_in self.new ≡ items_in self.old) }
        ensures yielded { IfOk result (λ ids. (s : Source) → IsWorldOf s self.old → AreYielded s (items_in self.old) (shapes_in self.old read.now) given self.new ids) }
    {
        match given {
            Yield::Each(place) => self.all_at(place),
            Yield::Read(seat) => one_read(self.alloc, read, seat),
            _ => self.one_made(shape_of(given)),
        }
    }

    // Each shape of a joined table.
    fn all_at(&self, place: Place) -> Result<Items<ShapeId>, AllocError>
        ensures there { IfOk result (λ ids. All (λ id. id < length self.now.rows.graph.truths) ids) }
        ensures are { IfOk result (λ ids. (id : ℕ) → Contains ids id ↔ Contains (entries self.now.rows.joined) (place, id)) }
    {
        // That no place has two rows stands in what the tables say of their count.
        let joined = self.tables.joined();
        let _count = joined.entry_count();
        Items::from_slice(self.alloc, joined.at(place))
    }

    // A shape without parts, under its number.
    fn one_made(&mut self, shape: Shape) -> Result<Items<ShapeId>, AllocError>
        requires given { IsOuter shape }
        requires parts { (count : ℕ) → IsThere count shape }
        ensures stay { NumbersStay self.old self.new }
        ensures there { IfOk result (λ ids. All (λ id. id < length self.new.rows.graph.truths) ids) }
        ensures same { (s : Source) → IsWorldOf s self.old → IsWorldOf s self.new × (items_in self.new ≡ items_in self.old) }
        ensures numbered { IfOk result (λ ids. IsOnlyNumber self.new ids (structure (structures self.old.rows.shapes) shape)) }
    {
        let id = self.add_shape(shape)?;
        Items::from_slice(self.alloc, &[id])
    }

    // The number of a shape without parts.
    fn add_shape(&mut self, shape: Shape) -> Result<ShapeId, AllocError>
        requires given { IsOuter shape }
        requires parts { (count : ℕ) → IsThere count shape }
        ensures stay { NumbersStay self.old self.new }
        ensures there { IfOk result (λ id. id < length self.new.rows.graph.truths) }
        ensures same { (s : Source) → IsWorldOf s self.old → IsWorldOf s self.new × (items_in self.new ≡ items_in self.old) }
        ensures numbered { IfOk result (λ id. slice_get (structures self.new.rows.shapes) id ≡ Some (structure (structures self.old.rows.shapes) shape)) }
    {
        // What is remembered is right for each shape more, since the graph is valid.
        let _flow = self.tables.graph().flow();
        sound_without_growth();
        match self.tables.add_shape(shape) {
            Ok(id) => Ok(id),
            Err(_) => Err(AllocError),
        }
    }
}

// The shape that is read at a seat, if there is one.
fn one_read(alloc: Global, read: &[ShapeId], seat: u32) -> Result<Items<ShapeId>, AllocError>
    ensures { IfOk result (λ ids. ids ≡ option_to_list (slice_get read.now seat)) }
{
    match read.get(seat as usize) {
        Some(shape) => Items::from_slice(alloc, &[*shape]),
        None => Ok(Items::new(alloc)),
    }
}

// The shape without parts that a rule gives.
fn shape_of(given: Yield) -> Shape
    requires { IsSome (made [] given) }
    ensures made { (shapes known : List ShapeValue) → made shapes given ≡ Some (structure known result) }
    ensures given { IsOuter result }
    ensures parts { (count : ℕ) → IsThere count result }
{
    match given {
        Yield::NoneValue => Shape::NoneValue,
        Yield::TrueValue => Shape::TrueValue,
        Yield::FalseValue => Shape::FalseValue,
        Yield::Int => Shape::Int,
        Yield::Float => Shape::Float,
        Yield::Str => Shape::Str,
        Yield::Bytes => Shape::Bytes,
        Yield::Native(id) => Shape::Native(Row::Builtin(id)),
        Yield::Ext => Shape::Ext,
        Yield::Any | Yield::Read(_) | Yield::Each(_) => Shape::Any,
    }
}

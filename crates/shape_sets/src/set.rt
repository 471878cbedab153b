//! Sets of shapes below a width.
ghost use Rattle.std.specs.Prelude.{◌≡◌, ◌<◌, IfOk, OnOk, OnErr, max};
ghost use Rattle.std.specs.Bool.{OnTrue, OnFalse};
ghost use Rattle.std.specs.FinSet as finite;
ghost use Rattle.shape_sets.specs.Sets.{grew};

use crate::planes::{add_all, has_more, holds_at, no_shapes};
use place_ids::{Id, ShapeId};
use std::alloc::{AllocError, Global};
use std::marker::Model;

/// A set of shapes whose numbers are below its width.
#[derive(Debug, Drop)]
pub struct ShapeSet {
    // One truth value per shape.
    held: Vec<bool>,
}

impl Model for ShapeSet {
    ghost use Rattle.std.specs.Prelude.{◌≤◌, ◌-◌, ◌^◌, length};
    ghost use Rattle.shape_sets.specs.Sets.{Members, members_code};
    ghost use Rattle.shape_sets.specs.Planes.{members_of};

    ghost Value = { Members };

    ghost coded = { members_code };

    ghost view = { λ set. record { width = length set.held.items; members = members_of set.held.items } };

    ghost invariant = { λ set. length set.held.items ≤ 2 ^ 32 - 1 };
}

impl ShapeSet {
    /// An empty set for shapes below a width.
    pub fn new(alloc: Global, width: u32) -> Result<ShapeSet, AllocError>
        ensures wide { IfOk result (λ set. set.width ≡ width) }
        ensures empty { IfOk result (λ set. set.members ≡ finite.empty) }
    {
        let held = no_shapes(alloc, width)?;
        Ok(ShapeSet { held })
    }

    /// Makes room for shapes below a width, if there is less.
    pub fn reserve(&mut self, width: u32) -> Result<(), AllocError>
        ensures reserved { OnOk result (self.new ≡ record self.old { width = max self.old.width width }) }
        ensures refused { OnErr result (self.new ≡ self.old) }
    {
        let width = width as usize;
        if self.held.len() < width {
            self.held.resize(width, false)?;
        }
        Ok(())
    }

    /// Puts a shape into the set, and answers whether the set grew.
    pub fn insert(&mut self, shape: ShapeId) -> bool
        requires { shape < self.old.width }
        ensures inserted { self.new ≡ record self.old { members = finite.insert self.old.members shape } }
        ensures grown { result ≡ grew self.old.members self.new.members }
        ensures kept { OnFalse result (self.new ≡ self.old) }
    {
        let place = shape.number() as usize;
        let is_new = !self.held[place];
        self.held[place] = true;
        is_new
    }

    /// Puts each shape of another set into this one, and answers whether this set grew.
    pub fn join(&mut self, other: &ShapeSet) -> bool
        requires { other.now.width ≡ self.old.width }
        ensures joined { self.new ≡ record self.old { members = finite.union self.old.members other.now.members } }
        ensures grown { result ≡ grew self.old.members self.new.members }
        ensures kept { OnFalse result (self.new ≡ self.old) }
    {
        let grows = has_more(&other.held, &self.held);
        if grows {
            add_all(&mut self.held, &other.held);
        }
        grows
    }

    /// Whether a shape is in the set. One at the width or above is not.
    pub fn contains(&self, shape: ShapeId) -> bool
        ensures member { result ≡ finite.contains self.now.members shape }
        ensures below { OnTrue result (shape < self.now.width) }
    {
        holds_at(&self.held, shape.number() as usize)
    }

    /// Whether each shape of this set is in another one, of any width.
    pub fn is_subset(&self, other: &ShapeSet) -> bool
        ensures { result ≡ finite.is_subset self.now.members other.now.members }
    {
        !has_more(&self.held, &other.held)
    }
}

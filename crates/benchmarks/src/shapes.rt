//! Shapes under ids, and joined tables.
use abstract_shapes::{Joined, Place, Shape, Shapes};
use anyhow::{Result, bail};
use place_ids::{Id, ShapeId, SiteId};
use std::alloc::Global;

/// So many shapes of lists, each interned twice.
pub fn interned(alloc: Global, count: u32) -> Result<Shapes> {
    let mut shapes = Shapes::new(alloc);
    for _ in 0..2u32 {
        for site in 0..count {
            if shapes.intern(Shape::List(SiteId::new(site))).is_err() {
                bail!("a shape was refused");
            }
        }
    }
    Ok(shapes)
}

/// So many places with one shape, each added twice.
pub fn places(alloc: Global, count: u32) -> Result<Joined> {
    let mut joined = Joined::new(alloc);
    for _ in 0..2u32 {
        for site in 0..count {
            joined.add(Place::Element(SiteId::new(site)), ShapeId::new(0))?;
        }
    }
    Ok(joined)
}

/// So many shapes at one place, each added twice.
pub fn entries(alloc: Global, count: u32) -> Result<Joined> {
    let mut joined = Joined::new(alloc);
    for _ in 0..2u32 {
        for number in 0..count {
            joined.add(Place::Raised, ShapeId::new(number))?;
        }
    }
    Ok(joined)
}

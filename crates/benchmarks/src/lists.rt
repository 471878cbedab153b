//! Lists that hold each other, and their type.
use crate::shapes::interned;
use abstract_shapes::{Joined, Place, type_of};
use anyhow::{Result, bail};
use place_ids::{Id, NameId, Names, ShapeId, SiteId};
use shape_sets::ShapeSet;
use std::alloc::{AllocError, Global};
use type_terms::term_text;

/// How deep types are printed.
const DEPTH: u32 = 3;

/// How many entries so many lists have, and how many bytes their type.
#[derive(Clone, Copy)]
pub struct Printed {
    pub entries: u64,
    pub bytes: usize,
}

// So many lists, each of which holds all of them.
fn held(alloc: Global, count: u32) -> Result<Joined, AllocError> {
    let mut joined = Joined::new(alloc);
    for site in 0..count {
        for number in 0..count {
            joined.add(Place::Element(SiteId::new(site)), ShapeId::new(number))?;
        }
    }
    Ok(joined)
}

fn all_below(alloc: Global, count: u32) -> Result<ShapeSet, AllocError> {
    let mut set = ShapeSet::new(alloc, count)?;
    for number in 0..count {
        set.insert(ShapeId::new(number));
    }
    Ok(set)
}

/// The type of so many lists, each of which holds all of them.
pub fn print_all(alloc: Global, count: u32) -> Result<Printed> {
    let shapes = interned(alloc, count)?;
    let joined = held(alloc, count)?;
    let set = all_below(alloc, count)?;
    let names = Names::new(alloc);
    let classes: Vec<NameId> = Vec::new(alloc);
    let made = type_of(alloc, &shapes, &joined, &names, &classes, &set, DEPTH)?;
    let written = term_text(alloc, &made)?;
    Ok(Printed {
        entries: joined.entry_count(),
        bytes: written.bytes().len(),
    })
}

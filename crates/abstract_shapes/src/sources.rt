//! What printed types are made from, and the types of sets at a depth.
ghost use Rattle.std.specs.Prelude.{◌≡◌, List, None, map, IfOk, OnOk};
ghost use Rattle.std.specs.List.{AllZip};
ghost use Rattle.type_terms.specs.Terms.{Term, tuple, terms_of};
ghost use Rattle.type_terms.specs.View.{term_view};
ghost use Rattle.abstract_shapes.specs.Kept.{AreKept};
ghost use Rattle.abstract_shapes.specs.Numbering.{structure, structures, shape_at};
ghost use Rattle.abstract_shapes.specs.Printed.{ArePlaces, IsShapeType, IsPrinted, plain_type};
ghost use Rattle.abstract_shapes.specs.Shapes.{tuple as tuple_shape};
ghost use Rattle.abstract_shapes.specs.Scenes.{scene_from, shapes_under};

use crate::kept::KeptTypes;
use crate::plain::plain_type;
use crate::{Joined, Place, Shape, Shapes};
use place_ids::{NameId, Names, ShapeId, SiteId};
use std::alloc::{AllocError, Global};
use type_terms::{TypeTerm, normal};

/// The shapes, the joined tables, the names, and which of these the classes have.
#[derive(Drop)]
pub(crate) struct Sources<'a> {
    pub(crate) alloc: Global,
    pub(crate) shapes: &'a Shapes,
    pub(crate) joined: &'a Joined,
    pub(crate) names: &'a Names,
    pub(crate) classes: &'a [NameId],
}

/// The type of the shapes under ids, at a depth.
#[cycle(types)]
pub(crate) fn type_at(
    sources: &Sources,
    kept: &mut KeptTypes,
    ids: &[ShapeId],
    depth: u32,
) -> Result<TypeTerm, AllocError>
    requires kept { AreKept (scene_from sources.now) kept.old }
    ensures made { IfOk result (λ made. IsPrinted (scene_from sources.now) depth (shapes_under (structures sources.now.shapes.now) ids.now) (term_view made)) }
    ensures kept { OnOk result (AreKept (scene_from sources.now) kept.new) }
{
    if depth == 0 {
        return Ok(TypeTerm::Any);
    }
    let types = types_of(sources, kept, ids, depth - 1)?;
    normal(sources.alloc, TypeTerm::Union(types))
}

// The types of the shapes under ids, one by one, where what they hold is printed at a depth.
#[cycle(types)]
fn types_of(
    sources: &Sources,
    kept: &mut KeptTypes,
    ids: &[ShapeId],
    depth: u32,
) -> Result<Vec<TypeTerm>, AllocError>
    requires kept { AreKept (scene_from sources.now) kept.old }
    ensures made { IfOk result (λ made. AllZip (IsShapeType (scene_from sources.now) (IsPrinted (scene_from sources.now) depth)) (shapes_under (structures sources.now.shapes.now) ids.now) (map term_view made.items)) }
    ensures kept { OnOk result (AreKept (scene_from sources.now) kept.new) }
{
    let mut types = Vec::new(sources.alloc);
    for id in ids {
        types.push(shape_type(sources, kept, *id, depth)?)?;
    }
    Ok(types)
}

#[cycle(types)]
fn shape_type(
    sources: &Sources,
    kept: &mut KeptTypes,
    id: ShapeId,
    depth: u32,
) -> Result<TypeTerm, AllocError>
    requires kept { AreKept (scene_from sources.now) kept.old }
    ensures made { IfOk result (λ made. IsShapeType (scene_from sources.now) (IsPrinted (scene_from sources.now) depth) (shape_at (structures sources.now.shapes.now) id) (term_view made)) }
    ensures kept { OnOk result (AreKept (scene_from sources.now) kept.new) }
{
    match sources.shapes.shape(id) {
        Some(shape) => known_type(sources, kept, shape, depth),
        None => Ok(TypeTerm::Any),
    }
}

#[cycle(types)]
fn known_type(
    sources: &Sources,
    kept: &mut KeptTypes,
    shape: &Shape,
    depth: u32,
) -> Result<TypeTerm, AllocError>
    requires kept { AreKept (scene_from sources.now) kept.old }
    ensures made { IfOk result (λ made. IsShapeType (scene_from sources.now) (IsPrinted (scene_from sources.now) depth) (structure (structures sources.now.shapes.now) shape.now) (term_view made)) }
    ensures kept { OnOk result (AreKept (scene_from sources.now) kept.new) }
{
    match plain_type(sources.alloc, sources.names, sources.classes, shape)? {
        Some(made) => Ok(made),
        None => container_type(sources, kept, shape, depth),
    }
}

// The type of a container.
#[cycle(types)]
fn container_type(
    sources: &Sources,
    kept: &mut KeptTypes,
    shape: &Shape,
    depth: u32,
) -> Result<TypeTerm, AllocError>
    requires kept { AreKept (scene_from sources.now) kept.old }
    requires container { plain_type (scene_from sources.now).class_name (structure (structures sources.now.shapes.now) shape.now) ≡ None }
    ensures made { IfOk result (λ made. IsShapeType (scene_from sources.now) (IsPrinted (scene_from sources.now) depth) (structure (structures sources.now.shapes.now) shape.now) (term_view made)) }
    ensures kept { OnOk result (AreKept (scene_from sources.now) kept.new) }
{
    match shape {
        Shape::List(site) => {
            let item = part_type(sources, kept, Place::Element(*site), depth)?;
            Ok(TypeTerm::List(item))
        }
        Shape::Dict(site) => {
            let key = part_type(sources, kept, Place::Key(*site), depth)?;
            let value = part_type(sources, kept, Place::Value(*site), depth)?;
            Ok(TypeTerm::Dict(key, value))
        }
        Shape::Tuple(site, places) => tuple_type(sources, kept, *site, *places, depth),
        Shape::Pair(site) => display_type(sources, kept, *site, 2, depth),
        _ => Ok(TypeTerm::Any),
    }
}

#[cycle(types)]
fn tuple_type(
    sources: &Sources,
    kept: &mut KeptTypes,
    site: SiteId,
    places: Option<u32>,
    depth: u32,
) -> Result<TypeTerm, AllocError>
    requires kept { AreKept (scene_from sources.now) kept.old }
    ensures made { IfOk result (λ made. IsShapeType (scene_from sources.now) (IsPrinted (scene_from sources.now) depth) (tuple_shape site places) (term_view made)) }
    ensures kept { OnOk result (AreKept (scene_from sources.now) kept.new) }
{
    match places {
        Some(places) => display_type(sources, kept, site, places, depth),
        None => {
            let item = part_type(sources, kept, Place::Element(site), depth)?;
            Ok(TypeTerm::TupleOf(item))
        }
    }
}

// The type of a tuple with so many places.
#[cycle(types)]
fn display_type(
    sources: &Sources,
    kept: &mut KeptTypes,
    site: SiteId,
    places: u32,
    depth: u32,
) -> Result<TypeTerm, AllocError>
    requires kept { AreKept (scene_from sources.now) kept.old }
    ensures made { IfOk result (λ made. (ts : List Term) × (term_view made ≡ tuple (terms_of ts)) × ArePlaces (scene_from sources.now) (IsPrinted (scene_from sources.now) depth) site 0 places ts) }
    ensures kept { OnOk result (AreKept (scene_from sources.now) kept.new) }
{
    let mut types = Vec::new(sources.alloc);
    for place in 0..places {
        let made = place_type(sources, kept, Place::Part(site, place), depth)?;
        types.push(made)?;
    }
    Ok(TypeTerm::Tuple(types))
}

// The type of what stands at a place.
#[cycle(types)]
fn place_type(
    sources: &Sources,
    kept: &mut KeptTypes,
    place: Place,
    depth: u32,
) -> Result<TypeTerm, AllocError>
    requires kept { AreKept (scene_from sources.now) kept.old }
    ensures made { IfOk result (λ made. IsPrinted (scene_from sources.now) depth ((scene_from sources.now).joined place) (term_view made)) }
    ensures kept { OnOk result (AreKept (scene_from sources.now) kept.new) }
{
    if depth == 0 {
        return Ok(TypeTerm::Any);
    }
    if let Some(made) = kept.find(place, depth) {
        return made.copy(sources.alloc);
    }
    let made = type_at(sources, kept, sources.joined.at(place), depth)?;
    kept.keep(place, depth, made.copy(sources.alloc)?)?;
    Ok(made)
}

// The same, as a part of another type.
#[cycle(types)]
fn part_type(
    sources: &Sources,
    kept: &mut KeptTypes,
    place: Place,
    depth: u32,
) -> Result<Box<TypeTerm>, AllocError>
    requires kept { AreKept (scene_from sources.now) kept.old }
    ensures made { IfOk result (λ made. IsPrinted (scene_from sources.now) depth ((scene_from sources.now).joined place) (term_view made.value)) }
    ensures kept { OnOk result (AreKept (scene_from sources.now) kept.new) }
{
    let made = place_type(sources, kept, place, depth)?;
    Ok(Box::new(sources.alloc, made)?)
}

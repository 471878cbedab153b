//! The printed type of a set of shapes.
ghost use Rattle.std.specs.Prelude.{◌≡◌, IfOk};
ghost use Rattle.type_terms.specs.View.{term_view};
ghost use Rattle.abstract_shapes.specs.Numbering.{structures};
ghost use Rattle.abstract_shapes.specs.Printed.{IsPrinted};
ghost use Rattle.abstract_shapes.specs.Scenes.{scene_of, shapes_in, ids_below};

use crate::kept::KeptTypes;
use crate::sources::{Sources, type_at};
use crate::{Joined, Shapes};
use place_ids::{Id, NameId, Names, ShapeId};
use shape_sets::ShapeSet;
use std::alloc::{AllocError, Global};
use type_terms::TypeTerm;

/// The type that is printed for a set of shapes at a depth (PEP 484). `classes` has the name of each class by its id.
/// A member of the set without a shape is left out, an id in a joined table without one counts as any value, and a class
/// without a name has the empty one.
pub fn type_of(
    alloc: Global,
    shapes: &Shapes,
    joined: &Joined,
    names: &Names,
    classes: &[NameId],
    set: &ShapeSet,
    depth: u32,
) -> Result<TypeTerm, AllocError>
    ensures { IfOk result (λ made. IsPrinted (scene_of (structures shapes.now) joined.now names.now classes.now) depth (shapes_in set.now.members (structures shapes.now)) (term_view made)) }
{
    let ids = ids_below(alloc, set, shapes.len())?;
    let sources = Sources {
        alloc,
        shapes,
        joined,
        names,
        classes,
    };
    let mut kept = KeptTypes::new(alloc);
    type_at(&sources, &mut kept, &ids, depth)
}

// The ids below a count that are in a set.
fn ids_below(alloc: Global, set: &ShapeSet, count: u32) -> Result<Vec<ShapeId>, AllocError>
    ensures { IfOk result (λ ids. ids.items ≡ ids_below set.now.members count) }
{
    let mut ids = Vec::new(alloc);
    for number in 0..count {
        let id = ShapeId::new(number);
        if set.contains(id) {
            ids.push(id)?;
        }
    }
    Ok(ids)
}

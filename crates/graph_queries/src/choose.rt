//! The choices of shapes for variables.
ghost use Rattle.std.specs.Prelude.{◌≡◌, ◌↔◌, ℕ, List, [], ◌∷◌, ◌++◌, map, IfOk, OnOk};
ghost use Rattle.std.specs.List.{Contains, flat_map};
ghost use Rattle.graph_queries.specs.Choices.{AreGiven};

use place_ids::{ShapeId, VarId};
use sqlite_items::Items;
use std::alloc::{AllocError, Global};
use typegraph::Graph;

/// Each choice of shapes for variables, where some fact gives each variable its shape.
pub fn choices(
    alloc: Global,
    graph: &Graph,
    vars: &[VarId],
) -> Result<Items<Items<ShapeId>>, AllocError>
    ensures { IfOk result (λ chosen. (shapes : List ℕ) → Contains chosen shapes ↔ AreGiven graph.now vars.now shapes) }
{
    let mut chosen = nothing_chosen(alloc)?;
    for var in vars {
        chosen = longer(alloc, chosen.as_slice(), graph.shapes_of(*var))?;
    }
    Ok(chosen)
}

// The only choice for no variables.
fn nothing_chosen(alloc: Global) -> Result<Items<Items<ShapeId>>, AllocError>
    ensures { IfOk result (λ chosen. chosen ≡ [] ∷ []) }
{
    let mut chosen = Items::new(alloc);
    chosen.push(Items::new(alloc))?;
    Ok(chosen)
}

// Each of the choices with each of the shapes behind it.
fn longer(
    alloc: Global,
    chosen: &[Items<ShapeId>],
    shapes: &[ShapeId],
) -> Result<Items<Items<ShapeId>>, AllocError>
    ensures { IfOk result (λ all. all ≡ flat_map (λ choice. map (λ shape. choice ++ shape ∷ []) shapes.now) chosen.now) }
{
    let mut all = Items::new(alloc);
    for choice in chosen {
        push_longer(alloc, &mut all, choice.as_slice(), shapes)?;
    }
    Ok(all)
}

// One choice with each of the shapes behind it.
fn push_longer(
    alloc: Global,
    all: &mut Items<Items<ShapeId>>,
    choice: &[ShapeId],
    shapes: &[ShapeId],
) -> Result<(), AllocError>
    ensures { OnOk result (all.new ≡ all.old ++ map (λ shape. choice.now ++ shape ∷ []) shapes.now) }
{
    for shape in shapes {
        let more = with_shape(alloc, choice, *shape)?;
        all.push(more)?;
    }
    Ok(())
}

fn with_shape(
    alloc: Global,
    choice: &[ShapeId],
    shape: ShapeId,
) -> Result<Items<ShapeId>, AllocError>
    ensures { IfOk result (λ more. more ≡ choice.now ++ shape ∷ []) }
{
    let mut more = Items::from_slice(alloc, choice)?;
    more.push(shape)?;
    Ok(more)
}

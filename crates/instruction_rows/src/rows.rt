//! What comes of shapes that are read together.
ghost use Rattle.std.specs.Prelude.{◌≡◌, [], ◌∷◌, map, IfOk};
ghost use Rattle.abstract_shapes.specs.Numbering.{structures};
ghost use Rattle.abstract_shapes.specs.Scenes.{shapes_under};
ghost use Rattle.world_rules.specs.Operators.{no_row, gives, faults};
ghost use Rattle.world_rules.specs.Rows.{row_of, row_of_none, row_of_one, row_of_two, missed, stored};

use crate::operators::{binary, compare, inverted, unary};
use crate::traits::traits_at;
use abstract_shapes::{Place, Shapes};
use place_ids::{NameId, ShapeId};
use sqlite_items::Items;
use std::alloc::{AllocError, Global};
use world_rules::{Fault, ShapeTraits, TableEntry, Transfer, TransferRow, Yield};

/// What a rule makes of the shapes under these ids. An id without a shape counts as that of any value.
pub fn row_of(
    alloc: Global,
    shapes: &Shapes,
    transfer: Transfer,
    read: &[ShapeId],
) -> Result<TransferRow, AllocError>
    ensures { IfOk result (λ row. row ≡ row_of transfer (shapes_under (structures shapes.now) read.now)) }
{
    match read {
        [] => row_of_none(alloc, transfer),
        [one] => row_of_one(alloc, transfer, traits_at(shapes, *one)),
        [left, right] => row_of_two(
            alloc,
            transfer,
            traits_at(shapes, *left),
            traits_at(shapes, *right),
        ),
        [_, _, _, ..] => Ok(no_row(alloc)),
    }
}

fn row_of_none(alloc: Global, transfer: Transfer) -> Result<TransferRow, AllocError>
    ensures { IfOk result (λ row. row ≡ row_of_none transfer) }
{
    match transfer {
        Transfer::Makes(made) => gives(alloc, &[made]),
        Transfer::Misses(name) => missed(alloc, name),
        _ => Ok(no_row(alloc)),
    }
}

fn row_of_one(
    alloc: Global,
    transfer: Transfer,
    traits: ShapeTraits,
) -> Result<TransferRow, AllocError>
    ensures { IfOk result (λ row. row ≡ row_of_one transfer traits) }
{
    match transfer {
        Transfer::Copies => gives(alloc, &[Yield::Read(0)]),
        Transfer::Stores(name) => stored(alloc, name),
        Transfer::Negates => inverted(alloc, traits.truth),
        Transfer::Applies(op) => unary(alloc, op, traits),
        _ => Ok(no_row(alloc)),
    }
}

fn row_of_two(
    alloc: Global,
    transfer: Transfer,
    left: ShapeTraits,
    right: ShapeTraits,
) -> Result<TransferRow, AllocError>
    ensures { IfOk result (λ row. row ≡ row_of_two transfer left right) }
{
    match transfer {
        Transfer::Combines(op, _) => binary(alloc, Fault::Binary(op), op, left, right),
        Transfer::Changes(op, _) => binary(alloc, Fault::InPlace(op), op, left, right),
        Transfer::Compares(op) => compare(alloc, op, left, right),
        _ => Ok(no_row(alloc)),
    }
}

// A value from outside, and a fault.
fn missed(alloc: Global, name: NameId) -> Result<TransferRow, AllocError>
    ensures { IfOk result (λ row. row ≡ missed name) }
{
    let row = gives(alloc, &[Yield::Ext])?;
    Ok(TransferRow {
        fault: Some(Fault::Name(name)),
        ..row
    })
}

// The shape that is read, which enters the table of the name too.
fn stored(alloc: Global, name: NameId) -> Result<TransferRow, AllocError>
    ensures { IfOk result (λ row. row ≡ stored name) }
{
    let row = gives(alloc, &[Yield::Read(0)])?;
    let entry = TableEntry {
        place: Place::Global(name),
        given: Yield::Read(0),
    };
    let entries = Items::from_slice(alloc, &[entry])?;
    Ok(TransferRow { entries, ..row })
}

/// Nothing comes.
pub(crate) fn no_row(alloc: Global) -> TransferRow
    ensures { result ≡ no_row }
{
    TransferRow {
        results: Items::new(alloc),
        entries: Items::new(alloc),
        spreads: Items::new(alloc),
        over: false,
        fault: None,
        unchecked: false,
    }
}

/// These shapes come.
pub(crate) fn gives(alloc: Global, results: &[Yield]) -> Result<TransferRow, AllocError>
    ensures { IfOk result (λ row. row ≡ gives results.now) }
{
    let results = Items::from_slice(alloc, results)?;
    Ok(TransferRow {
        results,
        ..no_row(alloc)
    })
}

/// Nothing comes, and it is a fault.
pub(crate) fn faults(alloc: Global, fault: Fault) -> TransferRow
    ensures { result ≡ faults fault }
{
    TransferRow {
        fault: Some(fault),
        ..no_row(alloc)
    }
}

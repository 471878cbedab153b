//! The joined tables.
ghost use Rattle.std.specs.Prelude.{◌≡◌, [], ◌∷◌, ◌++◌, true, false, not, nat_eq, None, length, ◌<◌, IsOk, IfSome, IfOk, OnOk, OnErr};
ghost use Rattle.std.specs.List.{IsDistinct};
ghost use Rattle.std.specs.List.Sorted.{IsPermutation};
ghost use Rattle.abstract_shapes.specs.declared.place.Place.{Place as PlaceValue};
ghost use Rattle.abstract_shapes.specs.Places.{same_place};
ghost use Rattle.abstract_shapes.specs.Tables.{table_at, has_shape, with_shape, row_number, entries, places_of};

use crate::Place;
use crate::table::{Table, TableRow};
use indexmap::IndexSet;
use place_ids::ShapeId;
use std::alloc::{AllocError, Global};
use std::marker::Model;

/// The shapes of each place. A place has none at first.
#[derive(Debug, Drop)]
pub struct Joined {
    alloc: Global,
    rows: Vec<TableRow>,
    places: IndexSet<Place>,
    count: u64,
}

impl Model for Joined {
    ghost use Rattle.std.specs.Prelude.{List};
    ghost use Rattle.abstract_shapes.specs.declared.table.TableRow.{TableRow};
    ghost use Rattle.abstract_shapes.specs.Tables.{IsIndexed};

    ghost Value = { List TableRow };

    ghost view = { λ joined. joined.rows.items };

    ghost invariant = { λ joined. IsIndexed joined.rows.items joined.places.keys joined.count };
}

impl Joined {
    /// Tables with no shapes. It takes no memory.
    pub fn new(alloc: Global) -> Joined
        ensures { result ≡ [] }
    {
        Joined {
            alloc,
            rows: Vec::new(alloc),
            places: IndexSet::new(alloc),
            count: 0,
        }
    }

    /// The shapes of a place, each once.
    pub fn at(&self, place: Place) -> &[ShapeId]
        ensures table { result.now ≡ table_at self.now place }
        ensures once { IsDistinct nat_eq result.now }
    {
        shapes_in(&self.places, &self.rows, &place)
    }

    /// How many entries there are, where an entry is a place with one of its shapes.
    pub fn entry_count(&self) -> u64
        ensures count { result ≡ length (entries self.now) }
        ensures apart { IsDistinct same_place (places_of self.now) }
    {
        self.count
    }

    /// Adds a shape to a place, and answers whether the place lacked it. An entry that is there takes no memory.
    pub fn add(&mut self, place: Place, shape: ShapeId) -> Result<bool, AllocError>
        ensures added { OnOk result (table_at self.new place ≡ with_shape shape (table_at self.old place)) }
        ensures kept { OnOk result ((other : PlaceValue) → (other ≡ place → ⊥) → table_at self.new other ≡ table_at self.old other) }
        ensures grown { IfOk result (λ grown. grown ≡ not (has_shape shape (table_at self.old place))) }
        ensures entry { IfOk result (λ grown. grown ≡ true → IsPermutation ((place, shape) ∷ entries self.old) (entries self.new)) }
        ensures same { IfOk result (λ grown. grown ≡ false → self.new ≡ self.old) }
        ensures known { has_shape shape (table_at self.old place) ≡ true → IsOk result }
        ensures refused { OnErr result (self.new ≡ self.old) }
    {
        if has_entry(&self.places, &self.rows, &place, shape) {
            return Ok(false);
        }
        if self.count == u64::MAX {
            return Err(AllocError);
        }
        add_entry(self.alloc, &mut self.places, &mut self.rows, place, shape)?;
        self.count += 1;
        Ok(true)
    }
}

// Where the row of a place stands.
fn row_of(places: &IndexSet<Place>, rows: &[TableRow], place: &Place) -> Option<usize>
    requires { places.now.keys ≡ places_of rows.now }
    ensures number { result ≡ row_number place.now rows.now }
    ensures within { IfSome result (λ row. row < length rows.now) }
{
    places.get_index_of(place)
}

fn shapes_in<'a>(places: &IndexSet<Place>, rows: &'a [TableRow], place: &Place) -> &'a [ShapeId]
    requires { places.now.keys ≡ places_of rows.now }
    ensures table { result.now ≡ table_at rows.now place.now }
    ensures once { IsDistinct nat_eq result.now }
{
    match row_of(places, rows, place) {
        Some(row) => rows[row].shapes.items(),
        None => &[],
    }
}

fn has_entry(places: &IndexSet<Place>, rows: &[TableRow], place: &Place, shape: ShapeId) -> bool
    requires { places.now.keys ≡ places_of rows.now }
    ensures { result ≡ has_shape shape (table_at rows.now place.now) }
{
    match row_of(places, rows, place) {
        Some(row) => rows[row].shapes.has(shape),
        None => false,
    }
}

// Adds a shape to the table of a place that lacks it.
fn add_entry(
    alloc: Global,
    places: &mut IndexSet<Place>,
    rows: &mut Vec<TableRow>,
    place: Place,
    shape: ShapeId,
) -> Result<(), AllocError>
    requires indexed { places.old.keys ≡ places_of rows.old.items }
    requires apart { IsDistinct same_place places.old.keys }
    requires fresh { has_shape shape (table_at rows.old.items place) ≡ false }
    ensures added { OnOk result (table_at rows.new.items place ≡ with_shape shape (table_at rows.old.items place)) }
    ensures kept { OnOk result ((other : PlaceValue) → (other ≡ place → ⊥) → table_at rows.new.items other ≡ table_at rows.old.items other) }
    ensures entry { OnOk result (IsPermutation ((place, shape) ∷ entries rows.old.items) (entries rows.new.items)) }
    ensures indexed { places.new.keys ≡ places_of rows.new.items }
    ensures apart { IsDistinct same_place places.new.keys }
    ensures refused { OnErr result (rows.new.items ≡ rows.old.items) }
{
    match row_of(places, rows, &place) {
        Some(row) => {
            let _grown = rows[row].shapes.add(shape)?;
            Ok(())
        }
        None => add_row(alloc, places, rows, place, shape),
    }
}

// A new row, with one shape.
fn add_row(
    alloc: Global,
    places: &mut IndexSet<Place>,
    rows: &mut Vec<TableRow>,
    place: Place,
    shape: ShapeId,
) -> Result<(), AllocError>
    requires indexed { places.old.keys ≡ places_of rows.old.items }
    requires apart { IsDistinct same_place places.old.keys }
    requires fresh { row_number place rows.old.items ≡ None }
    ensures added { OnOk result (rows.new.items ≡ rows.old.items ++ record { place = place; shapes = shape ∷ [] } ∷ []) }
    ensures indexed { places.new.keys ≡ places_of rows.new.items }
    ensures apart { IsDistinct same_place places.new.keys }
    ensures refused { OnErr result (rows.new.items ≡ rows.old.items) }
{
    let row = one_shape_row(alloc, &place, shape)?;
    rows.push(row)?;
    match places.insert(place) {
        Ok(_) => Ok(()),
        Err(_) => {
            let _row = rows.pop();
            Err(AllocError)
        }
    }
}

fn one_shape_row(alloc: Global, place: &Place, shape: ShapeId) -> Result<TableRow, AllocError>
    ensures { IfOk result (λ row. row ≡ record { place = place.now; shapes = shape ∷ [] }) }
{
    let mut shapes = Table::new(alloc);
    shapes.add(shape)?;
    Ok(TableRow {
        place: *place,
        shapes,
    })
}

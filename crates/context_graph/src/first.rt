//! Where the points of a context go on.
ghost use Rattle.std.specs.Prelude.{◌≡◌, ◌+◌, ◌<◌, None, IfSome};
ghost use Rattle.std.specs.List.{Contains};
ghost use Rattle.world_rules.specs.Sources.{Source};
ghost use Rattle.world_tables.specs.declared.spot.PointSpot.{PointSpot as Spot};
ghost use Rattle.world_tables.specs.Tables.{AreTables};
ghost use Rattle.world_tables.specs.Rows.{contexts_of, the_context, tables_of};
ghost use Rattle.context_graph.specs.Places.{HaveOneDepth, HavePoints, IsLast};

use crate::kept::kept;
use place_ids::{ContextId, Id, PointId};
use world_tables::{PointSpot, Tables};

/// The place behind those of the next context that are points already.
pub(crate) fn first_place(tables: &Tables, context: ContextId) -> usize
    requires next { context ≡ tables.now.finished }
    ensures order { (other : Spot) → Contains tables.now.points other → other.context ≡ context → other.place < result }
    ensures points { (s : Source) → AreTables s (tables_of tables.now) → HaveOneDepth s (the_context (contexts_of tables.now) context) →
        HavePoints s (tables_of tables.now) (the_context (contexts_of tables.now) context) result }
{
    kept(tables);
    match last_spot(tables) {
        Some(last) => behind(&last, context),
        None => 0,
    }
}

// The place behind a spot, if it is one of the context.
fn behind(last: &PointSpot, context: ContextId) -> usize
    ensures same { last.now.context ≡ context → result ≡ last.now.place + 1 }
    ensures other { (last.now.context ≡ context → ⊥) → result ≡ 0 }
{
    if last.context == context {
        last.place as usize + 1
    } else {
        0
    }
}

// The spot of the last point.
fn last_spot(tables: &Tables) -> Option<PointSpot>
    ensures none { result ≡ None → (other : Spot) → Contains tables.now.points other → ⊥ }
    ensures last { IfSome result (λ last. IsLast tables.now.points last) }
{
    kept(tables);
    let count = tables.point_count();
    if count == 0 {
        None
    } else {
        tables.point_spot(PointId::new(count - 1))
    }
}

//! What tables say of themselves.
ghost use Rattle.flow_graph.specs.Validity.{IsValid};
ghost use Rattle.world_tables.specs.Rows.{IsKept};

use place_ids::{Id, PointId};
use world_tables::Tables;

/// Tables are kept well always.
pub(crate) fn kept(tables: &Tables)
    ensures kept { IsKept tables.now }
    ensures valid { IsValid tables.now.graph.flow }
{
    let _target = tables.graph().flow().target(PointId::new(0));
}

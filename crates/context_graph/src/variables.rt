//! Variables that become known.
ghost use Rattle.std.specs.Prelude.{◌≡◌, ℕ, ◌<◌, Some, length, slice_get, IfOk};
ghost use Rattle.world_rules.specs.Sources.{Source};
ghost use Rattle.world_tables.specs.Tables.{AreTables, IsUsedIn};
ghost use Rattle.world_tables.specs.Rows.{contexts_of, variable_of, tables_of, IsSpotThere};
ghost use Rattle.context_graph.specs.Growth.{IsStep, IsPart};

use crate::kept::kept;
use place_ids::VarId;
use std::alloc::AllocError;
use world_tables::{Tables, VariableSpot};

/// The number of a variable, which is known then.
pub(crate) fn add_variable(tables: &mut Tables, spot: &VariableSpot) -> Result<VarId, AllocError>
    requires there { IsSpotThere spot.now (length tables.old.graph.flow.contexts) }
    ensures numbered { IfOk result (λ var. slice_get tables.new.variables var ≡ Some spot.now) }
    ensures within { IfOk result (λ var. var < tables.new.graph.flow.vars) }
    ensures points { tables.new.points ≡ tables.old.points }
    ensures step { IsStep tables.old tables.new }
    ensures keeps { (s : Source) (context : ℕ) → AreTables s (tables_of tables.old) → IsUsedIn s (contexts_of tables.old) (variable_of (contexts_of tables.old) spot.now) →
        IsPart s context tables.old tables.new }
{
    kept(tables);
    let added = tables.add_variable(spot);
    kept(tables);
    match added {
        Ok(var) => Ok(var),
        Err(_) => Err(AllocError),
    }
}

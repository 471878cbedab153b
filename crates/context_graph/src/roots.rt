//! Where walks start.
ghost use Rattle.std.specs.Prelude.{◌≡◌, ◌&&◌, ◌<◌, length};
ghost use Rattle.world_rules.specs.Items.{is_root};
ghost use Rattle.world_tables.specs.Tables.{items_of};
ghost use Rattle.world_tables.specs.Rows.{contexts_of, the_context, point_of, tables_of};
ghost use Rattle.context_graph.specs.Edges.{is_uncalled};

use crate::kept::kept;
use context_code::op_at;
use place_ids::ContextId;
use program_tables::Program;
use world_tables::{PointSpot, Tables};

/// Whether walks start at a spot: at the first place, with depth 0, of a context that nothing calls.
pub(crate) fn is_root(tables: &Tables, program: &Program, at: &PointSpot) -> bool
    requires { at.now.context < length tables.now.graph.flow.contexts }
    ensures { result ≡ is_root program.now.program (items_of (tables_of tables.now)) (point_of (contexts_of tables.now) at.now) }
{
    kept(tables);
    let uncalled = is_uncalled(tables, at.context);
    let there = op_at(tables, program, at).is_some();
    are_all(at.place == 0, at.depth == 0, uncalled, there)
}

fn are_all(first: bool, empty: bool, uncalled: bool, there: bool) -> bool
    ensures { result ≡ first && (empty && (uncalled && there)) }
{
    first && empty && uncalled && there
}

// Whether nothing calls a context.
fn is_uncalled(tables: &Tables, context: ContextId) -> bool
    requires { context < length tables.now.graph.flow.contexts }
    ensures { result ≡ is_uncalled (the_context (contexts_of tables.now) context) }
{
    match tables.graph().flow().context(context) {
        Some(row) => row.parent.is_none(),
        None => false,
    }
}

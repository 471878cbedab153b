//! How large a world may be.
ghost use Rattle.std.specs.Prelude.{◌↔◌, ◌<◌, IsTrue, length};
ghost use Rattle.abstract_vm.specs.Worlds.{most_items};
ghost use Rattle.world_tables.specs.Tables.{items_of};
ghost use Rattle.world_tables.specs.Rows.{tables_of};

use crate::fire::MOST_ITEMS;
use world_tables::Tables;

/// Whether there are more items than a world may have.
pub(crate) fn is_too_large(tables: &Tables) -> bool
    ensures { IsTrue result ↔ (most_items < length (items_of (tables_of tables.now))) }
{
    tables.item_count() > MOST_ITEMS
}

//! Values by name, of which the first ones stay.
ghost use Rattle.std.specs.Prelude.{◌≡◌, ℕ, nat_eq, OnOk, Some, None, if◌then◌else◌};
ghost use Rattle.std.specs.Option.{option_or};
ghost use Rattle.indexmap.specs.IndexMap.{get};

use indexmap::IndexMap;
use place_ids::NameId;
use std::alloc::AllocError;

/// Puts a value under a name that has none yet.
pub(crate) fn put_first<V: Copy + Drop>(
    values: &mut IndexMap<NameId, V>,
    name: NameId,
    value: V,
) -> Result<(), AllocError>
    ensures { OnOk result ((other : ℕ) → get nat_eq values.new other ≡ option_or (get nat_eq values.old other) (if nat_eq name other then Some value else None)) }
{
    if values.get(&name).is_none() {
        values.insert(name, value)?;
    }
    Ok(())
}

//! The names that a stub prints, in the order of their texts.
ghost use Rattle.std.specs.Prelude.{◌≡◌, IfOk, OnOk};
ghost use Rattle.scope_rules.specs.Printed as spec;

use crate::builtins::text_of;
use crate::names_of::values;
use crate::rows::Rows;
use place_ids::{NameId, Names};
use scope_rules::Mention;
use std::alloc::{AllocError, Global};

/// The names that get a value other than by import, `def` and `class`, sorted by the bytes of their texts.
pub(crate) fn printed(
    alloc: Global,
    names: &Names,
    mentions: &[Mention],
) -> Result<Rows<NameId>, AllocError>
    ensures { IfOk result (λ sorted. sorted ≡ spec.printed_of names.now mentions.now) }
{
    let values = values(alloc, mentions)?;
    let mut sorted = Vec::from_slice(alloc, values.items())?;
    sort(names, &mut sorted)?;
    Ok(Rows::from_items(sorted))
}

fn sort(names: &Names, items: &mut Vec<NameId>) -> Result<(), AllocError>
    ensures { OnOk result (items.new.items ≡ spec.in_order names.now items.old.items) }
{
    items.sort_by(|one, other| text_of(names, *one).cmp(text_of(names, *other)))?;
    Ok(())
}

//! The names that are mentioned in some roles.
ghost use Rattle.std.specs.Prelude.{◌≡◌, [], IfOk};
ghost use Rattle.scope_rules.specs.Named.{named};
ghost use Rattle.scope_rules.specs.Roles as roles;

use crate::name_set::NameSet;
use crate::roles::{binds, is_store, is_value};
use scope_rules::Mention;
use std::alloc::{AllocError, Global};

/// The names that are bound, in the order of their first binding.
pub(crate) fn bound(alloc: Global, mentions: &[Mention]) -> Result<NameSet, AllocError>
    ensures { IfOk result (λ names. names ≡ named roles.binds [] mentions.now) }
{
    let mut names = NameSet::new(alloc);
    for m in mentions {
        names.insert_if(binds(m.role), m.name)?;
    }
    Ok(names)
}

/// The attributes that are stored to.
pub(crate) fn stores(alloc: Global, mentions: &[Mention]) -> Result<NameSet, AllocError>
    ensures { IfOk result (λ names. names ≡ named roles.is_store [] mentions.now) }
{
    let mut names = NameSet::new(alloc);
    for m in mentions {
        names.insert_if(is_store(m.role), m.name)?;
    }
    Ok(names)
}

/// The names that get a value other than by import, `def` and `class`.
pub(crate) fn values(alloc: Global, mentions: &[Mention]) -> Result<NameSet, AllocError>
    ensures { IfOk result (λ names. names ≡ named roles.is_value [] mentions.now) }
{
    let mut names = NameSet::new(alloc);
    for m in mentions {
        names.insert_if(is_value(m.role), m.name)?;
    }
    Ok(names)
}

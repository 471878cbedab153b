//! The scopes of a module, or its first fault.
ghost use Rattle.std.specs.Prelude.{◌≡◌, ◌⊎◌, Err, IfOk};
ghost use Rattle.py_tree.specs.View.{module_view};
ghost use Rattle.scope_rules.specs.Faults.{faults, first as first_of};
ghost use Rattle.scope_rules.specs.Answers.{answer};
ghost use Rattle.scope_rules.specs.Scoped.{scoped};

use crate::fault::{first, told};
use crate::judging::judge;
use crate::listing::body_mentions;
use crate::names_of::{bound, stores};
use crate::printed::printed;
use crate::scopes::Scopes;
use crate::tables::{classes, everything, locals};
use place_ids::Sequence;
use py_tree::Module;
use scope_rules::{Fault, ScopeFault};
use std::alloc::{AllocError, Global};

/// What the names of a module stand for, or the rule that is broken first: at the least line, and there the one with the
/// least number.
pub fn scope(alloc: Global, module: &Module) -> Result<Scopes, ScopeFault>
    ensures { (result ≡ answer (module_view «module».now)) ⊎ (result ≡ Err ScopeFault.Memory) }
{
    let Ok(fault) = first_fault(alloc, module) else {
        return Err(ScopeFault::Memory);
    };
    if let Some(fault) = fault {
        return Err(told(fault));
    }
    match tables(alloc, module) {
        Ok(scopes) => Ok(scopes),
        Err(_) => Err(ScopeFault::Memory),
    }
}

fn first_fault(alloc: Global, module: &Module) -> Result<Option<Fault>, AllocError>
    ensures { IfOk result (λ fault. fault ≡ first_of (faults (module_view «module».now))) }
{
    let mut faults = Sequence::new(alloc);
    judge(alloc, module, &mut faults)?;
    Ok(first(faults.items()))
}

fn tables(alloc: Global, module: &Module) -> Result<Scopes, AllocError>
    ensures { IfOk result (λ scopes. scopes ≡ scoped (module_view «module».now)) }
{
    let mentions = body_mentions(alloc, &module.body)?;
    let all = everything(alloc, &module.body)?;
    let bound = bound(alloc, mentions.items())?;
    let stored = stores(alloc, all.items())?;
    let printed = printed(alloc, &module.names, mentions.items())?;
    let mut named = Vec::new(alloc);
    locals(alloc, &module.body, &mut named)?;
    let classes = classes(alloc, &module.names, &module.body)?;
    Ok(Scopes {
        bound,
        stored,
        printed,
        locals: named,
        classes,
    })
}

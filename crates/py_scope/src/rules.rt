//! The rules of modules and functions, over what stands in their bodies.
ghost use Rattle.std.specs.Prelude.{◌≡◌, ◌++◌, ◌&&◌, ◌||◌, nat_eq, OnOk};
ghost use Rattle.scope_rules.specs.NameLists.{has_name};
ghost use Rattle.scope_rules.specs.Named.{mentioned};
ghost use Rattle.scope_rules.specs.Roles as roles;
ghost use Rattle.scope_rules.specs.Rules as spec;

use crate::builtins::{is_builtin, is_init, is_typing, text_of};
use crate::fault::fault_if;
use crate::name_set::NameSet;
use crate::roles::{assigns, binds, is_definition, is_import, is_parameter, is_super, is_target};
use place_ids::{NameId, Names, Sequence};
use scope_rules::{Fault, Mention, Rule};
use std::alloc::{AllocError, Global};

// Whether a name is bound again, where these are bound before, and these of them by a `def` or a `class`.
fn rebinds(bound: &NameSet, defined: &NameSet, m: &Mention) -> bool
    ensures { result ≡ (roles.binds m.now.role && (has_name defined.now m.now.name || (roles.is_definition m.now.role && has_name bound.now m.now.name))) }
{
    binds(m.role) && (defined.contains(m.name) || (is_definition(m.role) && bound.contains(m.name)))
}

#[tactic(auto, using(std::proofs::Common::append_assoc))]
pub(crate) fn rebound(
    alloc: Global,
    mentions: &[Mention],
    out: &mut Sequence<Fault>,
) -> Result<(), AllocError>
    ensures { OnOk result (out.new ≡ out.old ++ spec.rebound mentions.now) }
{
    let mut bound = NameSet::new(alloc);
    let mut defined = NameSet::new(alloc);
    for m in mentions {
        fault_if(rebinds(&bound, &defined, m), Rule::Rebound, m.line, out)?;
        bound.insert_if(binds(m.role), m.name)?;
        defined.insert_if(is_definition(m.role), m.name)?;
    }
    Ok(())
}

fn takes_builtin(names: &Names, m: &Mention) -> bool
    ensures { result ≡ spec.takes_builtin names.now m.now }
{
    let text = text_of(names, m.name);
    binds(m.role) && (is_builtin(text) || (!is_import(m.role) && is_typing(text)))
}

#[tactic(auto, using(std::proofs::Common::append_assoc))]
pub(crate) fn builtin_bound(
    names: &Names,
    mentions: &[Mention],
    out: &mut Sequence<Fault>,
) -> Result<(), AllocError>
    ensures { OnOk result (out.new ≡ out.old ++ spec.builtin_bound names.now mentions.now) }
{
    for m in mentions {
        fault_if(takes_builtin(names, m), Rule::BuiltinBound, m.line, out)?;
    }
    Ok(())
}

fn repeats_parameter(seen: &NameSet, m: &Mention) -> bool
    ensures { result ≡ (roles.is_parameter m.now.role && has_name seen.now m.now.name) }
{
    is_parameter(m.role) && seen.contains(m.name)
}

#[tactic(auto, using(std::proofs::Common::append_assoc))]
pub(crate) fn duplicate_params(
    alloc: Global,
    mentions: &[Mention],
    out: &mut Sequence<Fault>,
) -> Result<(), AllocError>
    ensures { OnOk result (out.new ≡ out.old ++ spec.duplicate_params mentions.now) }
{
    let mut seen = NameSet::new(alloc);
    for m in mentions {
        fault_if(
            repeats_parameter(&seen, m),
            Rule::DuplicateParam,
            m.line,
            out,
        )?;
        seen.insert_if(is_parameter(m.role), m.name)?;
    }
    Ok(())
}

fn is_wrong_super(wrong: bool, m: &Mention) -> bool
    ensures { result ≡ spec.is_wrong_super wrong m.now }
{
    wrong && is_super(m.role)
}

#[tactic(auto, using(std::proofs::Common::append_assoc))]
pub(crate) fn super_uses(
    wrong: bool,
    mentions: &[Mention],
    out: &mut Sequence<Fault>,
) -> Result<(), AllocError>
    ensures { OnOk result (out.new ≡ out.old ++ spec.super_uses wrong mentions.now) }
{
    for m in mentions {
        fault_if(is_wrong_super(wrong, m), Rule::SuperUse, m.line, out)?;
    }
    Ok(())
}

fn assigns_name(name: NameId, m: &Mention) -> bool
    ensures { result ≡ (roles.assigns m.now.role && nat_eq name m.now.name) }
{
    assigns(m.role) && name == m.name
}

fn is_assigned(name: NameId, mentions: &[Mention]) -> bool
    ensures { result ≡ mentioned roles.assigns name mentions.now }
{
    for m in mentions {
        if assigns_name(name, m) {
            return true;
        }
    }
    false
}

/// Whether the first parameter gets another value.
pub(crate) fn rebinds_first(mentions: &[Mention]) -> bool
    ensures { result ≡ spec.rebinds_first mentions.now }
{
    match mentions {
        [first, others @ ..] => is_parameter(first.role) && is_assigned(first.name, others),
        [] => false,
    }
}

fn is_init_target(names: &Names, m: &Mention) -> bool
    ensures { result ≡ spec.is_init_target names.now m.now }
{
    is_target(m.role) && is_init(text_of(names, m.name))
}

#[tactic(auto, using(std::proofs::Common::append_assoc))]
pub(crate) fn init_targets(
    names: &Names,
    mentions: &[Mention],
    out: &mut Sequence<Fault>,
) -> Result<(), AllocError>
    ensures { OnOk result (out.new ≡ out.old ++ spec.init_targets names.now mentions.now) }
{
    for m in mentions {
        fault_if(is_init_target(names, m), Rule::MethodRule, m.line, out)?;
    }
    Ok(())
}

//! The rules of classes, over what stands in their bodies.
ghost use Rattle.std.specs.Prelude.{◌≡◌, ◌++◌, ◌&&◌, OnOk};
ghost use Rattle.scope_rules.specs.NameLists.{has_name};
ghost use Rattle.scope_rules.specs.Roles as roles;
ghost use Rattle.scope_rules.specs.Rules as spec;

use crate::builtins::{is_exception, is_init, is_object, text_of};
use crate::fault::fault_if;
use crate::name_set::NameSet;
use crate::names_of::bound;
use crate::roles::{binds, is_name, is_plain_member};
use place_ids::{NameId, Names, Sequence};
use scope_rules::{Fault, Mention, Rule};
use std::alloc::{AllocError, Global};

fn is_base_text(text: &[u8]) -> bool
    ensures { result ≡ spec.is_base_text text.now }
{
    is_object(text) || is_exception(text)
}

/// Whether a class's base is unknown, where the classes before it have these names.
pub(crate) fn is_unknown(names: &Names, earlier: &NameSet, base: Option<NameId>) -> bool
    ensures { result ≡ spec.is_unknown names.now earlier.now base }
{
    match base {
        Some(name) => !(earlier.contains(name) || is_base_text(text_of(names, name))),
        None => false,
    }
}

fn binds_again(seen: &NameSet, m: &Mention) -> bool
    ensures { result ≡ (roles.binds m.now.role && has_name seen.now m.now.name) }
{
    binds(m.role) && seen.contains(m.name)
}

#[tactic(auto, using(std::proofs::Common::append_assoc))]
pub(crate) fn member_twice(
    alloc: Global,
    mentions: &[Mention],
    out: &mut Sequence<Fault>,
) -> Result<(), AllocError>
    ensures { OnOk result (out.new ≡ out.old ++ spec.member_twice mentions.now) }
{
    let mut seen = NameSet::new(alloc);
    for m in mentions {
        fault_if(binds_again(&seen, m), Rule::MethodRule, m.line, out)?;
        seen.insert_if(binds(m.role), m.name)?;
    }
    Ok(())
}

fn reads_member(bound: &NameSet, m: &Mention) -> bool
    ensures { result ≡ (roles.is_name m.now.role && has_name bound.now m.now.name) }
{
    is_name(m.role) && bound.contains(m.name)
}

#[tactic(auto, using(std::proofs::Common::append_assoc))]
pub(crate) fn member_reads(
    alloc: Global,
    mentions: &[Mention],
    out: &mut Sequence<Fault>,
) -> Result<(), AllocError>
    ensures { OnOk result (out.new ≡ out.old ++ spec.member_reads mentions.now) }
{
    let bound = bound(alloc, mentions)?;
    for m in mentions {
        fault_if(reads_member(&bound, m), Rule::MethodRule, m.line, out)?;
    }
    Ok(())
}

fn is_init_member(names: &Names, m: &Mention) -> bool
    ensures { result ≡ spec.is_init_member names.now m.now }
{
    is_plain_member(m.role) && is_init(text_of(names, m.name))
}

#[tactic(auto, using(std::proofs::Common::append_assoc))]
pub(crate) fn init_members(
    names: &Names,
    mentions: &[Mention],
    out: &mut Sequence<Fault>,
) -> Result<(), AllocError>
    ensures { OnOk result (out.new ≡ out.old ++ spec.init_members names.now mentions.now) }
{
    for m in mentions {
        fault_if(is_init_member(names, m), Rule::MethodRule, m.line, out)?;
    }
    Ok(())
}

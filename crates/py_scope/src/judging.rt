//! The faults of functions, classes and modules.
ghost use Rattle.std.specs.Prelude.{◌≡◌, ◌++◌, ◌&&◌, [], OnOk, map};
ghost use Rattle.py_tree.specs.View.{stmts_view, fun_view, class_view, members_view, module_view, param_view};
ghost use Rattle.scope_rules.specs.Faults as spec;

use crate::builtins::{is_init, text_of};
use crate::class_rules::{init_members, is_unknown, member_reads, member_twice};
use crate::fault::fault_if;
use crate::jump_rules::{breaks_outside, init_returns, returns_outside};
use crate::listing::{body_jumps, body_mentions, class_mentions, fun_mentions};
use crate::name_set::NameSet;
use crate::rules::{
    builtin_bound, duplicate_params, init_targets, rebinds_first, rebound, super_uses,
};
use place_ids::{Names, Sequence};
use py_tree::{ClassDef, FunDef, Member, Module, Param, Stmt, StmtKind};
use scope_rules::{Fault, Jump, Mention, Rule};
use std::alloc::{AllocError, Global};

// The faults of a function but for those of its parameters' number.
#[tactic(auto, using(std::proofs::Common::append_assoc))]
fn judge_body(
    alloc: Global,
    in_class: bool,
    init: bool,
    mentions: &[Mention],
    jumps: &[Jump],
    out: &mut Sequence<Fault>,
) -> Result<(), AllocError>
    ensures { OnOk result (out.new ≡ out.old ++ spec.body_faults in_class init mentions.now jumps.now) }
{
    duplicate_params(alloc, mentions, out)?;
    breaks_outside(jumps, out)?;
    init_returns(in_class && init, jumps, out)?;
    super_uses(!in_class || rebinds_first(mentions), mentions, out)?;
    Ok(())
}

// Whether a method has no parameter.
fn is_bare(in_class: bool, params: &[Param]) -> bool
    ensures { result ≡ (in_class && spec.has_none (map param_view params.now)) }
{
    match params {
        [] => in_class,
        _ => false,
    }
}

#[tactic(auto, using(std::proofs::Common::append_assoc))]
fn judge_fun(
    alloc: Global,
    names: &Names,
    in_class: bool,
    fun: &FunDef,
    out: &mut Sequence<Fault>,
) -> Result<(), AllocError>
    ensures { OnOk result (out.new ≡ out.old ++ spec.fun_faults names.now in_class (fun_view fun.now)) }
{
    let mentions = fun_mentions(alloc, fun)?;
    let jumps = body_jumps(alloc, &fun.body)?;
    let init = is_init(text_of(names, fun.name));
    judge_body(alloc, in_class, init, mentions.items(), jumps.items(), out)?;
    let bare = is_bare(in_class, &fun.params);
    fault_if(bare, Rule::MethodRule, fun.line, out)?;
    init_targets(names, mentions.items(), out)?;
    Ok(())
}

#[tactic(auto, using(std::proofs::Common::append_assoc))]
fn judge_methods(
    alloc: Global,
    names: &Names,
    members: &[Member],
    out: &mut Sequence<Fault>,
) -> Result<(), AllocError>
    ensures { OnOk result (out.new ≡ out.old ++ spec.method_faults names.now (members_view members.now)) }
{
    for member in members {
        if let Member::Method(fun) = member {
            judge_fun(alloc, names, true, fun, out)?;
        }
    }
    Ok(())
}

#[tactic(auto, using(std::proofs::Common::append_assoc))]
fn judge_members(
    alloc: Global,
    names: &Names,
    mentions: &[Mention],
    out: &mut Sequence<Fault>,
) -> Result<(), AllocError>
    ensures { OnOk result (out.new ≡ out.old ++ spec.member_faults names.now mentions.now) }
{
    super_uses(true, mentions, out)?;
    member_twice(alloc, mentions, out)?;
    member_reads(alloc, mentions, out)?;
    init_members(names, mentions, out)?;
    Ok(())
}

#[tactic(auto, using(std::proofs::Common::append_assoc))]
fn judge_class(
    alloc: Global,
    names: &Names,
    earlier: &NameSet,
    class: &ClassDef,
    out: &mut Sequence<Fault>,
) -> Result<(), AllocError>
    ensures { OnOk result (out.new ≡ out.old ++ spec.class_faults names.now earlier.now (class_view class.now)) }
{
    let broken = is_unknown(names, earlier, class.base);
    fault_if(broken, Rule::BaseUnknown, class.line, out)?;
    let mentions = class_mentions(alloc, class)?;
    judge_members(alloc, names, mentions.items(), out)?;
    judge_methods(alloc, names, &class.members, out)?;
    Ok(())
}

#[tactic(auto, using(std::proofs::Common::append_assoc))]
fn judge_definitions(
    alloc: Global,
    names: &Names,
    stmts: &[Stmt],
    out: &mut Sequence<Fault>,
) -> Result<(), AllocError>
    ensures { OnOk result (out.new ≡ out.old ++ spec.definition_faults names.now [] (stmts_view stmts.now)) }
{
    let mut earlier = NameSet::new(alloc);
    for stmt in stmts {
        match &stmt.kind {
            StmtKind::Def(fun) => judge_fun(alloc, names, false, fun, out)?,
            StmtKind::Class(class) => {
                judge_class(alloc, names, &earlier, class, out)?;
                earlier.insert(class.name)?;
            }
            _ => {}
        }
    }
    Ok(())
}

#[tactic(auto, using(std::proofs::Common::append_assoc))]
fn judge_top(
    alloc: Global,
    names: &Names,
    mentions: &[Mention],
    jumps: &[Jump],
    out: &mut Sequence<Fault>,
) -> Result<(), AllocError>
    ensures { OnOk result (out.new ≡ out.old ++ spec.top_faults names.now mentions.now jumps.now) }
{
    rebound(alloc, mentions, out)?;
    builtin_bound(names, mentions, out)?;
    breaks_outside(jumps, out)?;
    returns_outside(jumps, out)?;
    super_uses(true, mentions, out)?;
    init_targets(names, mentions, out)?;
    Ok(())
}

/// Puts the faults of a module at the end.
#[tactic(auto, using(std::proofs::Common::append_assoc))]
pub(crate) fn judge(
    alloc: Global,
    module: &Module,
    out: &mut Sequence<Fault>,
) -> Result<(), AllocError>
    ensures { OnOk result (out.new ≡ out.old ++ spec.faults (module_view «module».now)) }
{
    let mentions = body_mentions(alloc, &module.body)?;
    let jumps = body_jumps(alloc, &module.body)?;
    judge_top(alloc, &module.names, mentions.items(), jumps.items(), out)?;
    judge_definitions(alloc, &module.names, &module.body, out)?;
    Ok(())
}

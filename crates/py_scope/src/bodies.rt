//! What functions and class bodies say of names.
ghost use Rattle.std.specs.Prelude.{◌≡◌, ◌++◌, OnOk, map, option_map, Some};
ghost use Rattle.py_tree.specs.View.{expr_view, fun_view, class_view, member_view, members_view, param_view};
ghost use Rattle.scope_rules.specs.Uses as spec;

use crate::expressions::mention;
use crate::mention::at;
use crate::uses::uses;
use place_ids::{LineNo, NameId, Sequence};
use py_tree::{ClassDef, Expr, FunDef, Member, Param};
use scope_rules::{Mention, Role};
use std::alloc::AllocError;

/// Puts a function's parameters and what its body says of names at the end.
#[tactic(auto, using(std::proofs::Common::append_assoc))]
pub(crate) fn uses_of_fun(fun: &FunDef, out: &mut Sequence<Mention>) -> Result<(), AllocError>
    ensures { OnOk result (out.new ≡ out.old ++ spec.uses_of_fun (fun_view fun.now)) }
{
    parameters(&fun.params, fun.line, out)?;
    uses(&fun.body, out)?;
    Ok(())
}

#[tactic(auto, using(std::proofs::Common::append_assoc))]
fn parameters(params: &[Param], line: LineNo, out: &mut Sequence<Mention>) -> Result<(), AllocError>
    ensures { OnOk result (out.new ≡ out.old ++ spec.parameters (map param_view params.now) line) }
{
    for param in params {
        out.push(at(Role::Parameter, param.name, line))?;
    }
    Ok(())
}

/// Puts what a class body says of names at the end. It does not go into methods.
pub(crate) fn uses_of_class(class: &ClassDef, out: &mut Sequence<Mention>) -> Result<(), AllocError>
    ensures { OnOk result (out.new ≡ out.old ++ spec.uses_of_class (class_view class.now)) }
{
    uses_of_members(&class.members, out)
}

#[tactic(auto, using(std::proofs::Common::append_assoc))]
fn uses_of_members(members: &[Member], out: &mut Sequence<Mention>) -> Result<(), AllocError>
    ensures { OnOk result (out.new ≡ out.old ++ spec.uses_of_members (members_view members.now)) }
{
    for member in members {
        uses_of_member(member, out)?;
    }
    Ok(())
}

fn uses_of_member(member: &Member, out: &mut Sequence<Mention>) -> Result<(), AllocError>
    ensures { OnOk result (out.new ≡ out.old ++ spec.uses_of_member (member_view member.now)) }
{
    match member {
        Member::Pass | Member::Ellipsis | Member::Text => Ok(()),
        Member::Value(name, value, line) => use_of_value(*name, value, *line, out),
        Member::Annotated(name, value, line) => use_of_annotated(*name, value, *line, out),
        Member::Method(fun) => out.push(at(Role::Definition, fun.name, fun.line)),
    }
}

#[tactic(auto, using(std::proofs::Common::append_assoc))]
fn use_of_value(
    name: NameId,
    value: &Expr,
    line: LineNo,
    out: &mut Sequence<Mention>,
) -> Result<(), AllocError>
    ensures { OnOk result (out.new ≡ out.old ++ spec.declares name (Some (expr_view value.now)) line) }
{
    mention(value, out)?;
    out.push(at(Role::Value, name, line))?;
    Ok(())
}

fn use_of_annotated(
    name: NameId,
    value: &Option<Expr>,
    line: LineNo,
    out: &mut Sequence<Mention>,
) -> Result<(), AllocError>
    ensures { OnOk result (out.new ≡ out.old ++ spec.declares name (option_map expr_view value.now) line) }
{
    match value {
        Some(value) => use_of_value(name, value, line, out),
        None => out.push(at(Role::Annotation, name, line)),
    }
}

//! Lists of what stands in bodies.
ghost use Rattle.std.specs.Prelude.{◌≡◌, false, IfOk};
ghost use Rattle.py_tree.specs.View.{stmts_view, fun_view, class_view};
ghost use Rattle.scope_rules.specs.Jumps as jump_spec;
ghost use Rattle.scope_rules.specs.Uses as uses_spec;

use crate::bodies::{uses_of_class, uses_of_fun};
use crate::jumps::jumps;
use crate::uses::uses;
use place_ids::Sequence;
use py_tree::{ClassDef, FunDef, Stmt};
use scope_rules::{Jump, Mention};
use std::alloc::{AllocError, Global};

pub(crate) fn fun_mentions(alloc: Global, fun: &FunDef) -> Result<Sequence<Mention>, AllocError>
    ensures { IfOk result (λ out. out ≡ uses_spec.uses_of_fun (fun_view fun.now)) }
{
    let mut out = Sequence::new(alloc);
    uses_of_fun(fun, &mut out)?;
    Ok(out)
}

pub(crate) fn class_mentions(
    alloc: Global,
    class: &ClassDef,
) -> Result<Sequence<Mention>, AllocError>
    ensures { IfOk result (λ out. out ≡ uses_spec.uses_of_class (class_view class.now)) }
{
    let mut out = Sequence::new(alloc);
    uses_of_class(class, &mut out)?;
    Ok(out)
}

pub(crate) fn body_mentions(alloc: Global, stmts: &[Stmt]) -> Result<Sequence<Mention>, AllocError>
    ensures { IfOk result (λ out. out ≡ uses_spec.uses (stmts_view stmts.now)) }
{
    let mut out = Sequence::new(alloc);
    uses(stmts, &mut out)?;
    Ok(out)
}

pub(crate) fn body_jumps(alloc: Global, stmts: &[Stmt]) -> Result<Sequence<Jump>, AllocError>
    ensures { IfOk result (λ out. out ≡ jump_spec.jumps false (stmts_view stmts.now)) }
{
    let mut out = Sequence::new(alloc);
    jumps(false, stmts, &mut out)?;
    Ok(out)
}

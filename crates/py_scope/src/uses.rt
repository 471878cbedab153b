//! What statements say of names.
ghost use Rattle.std.specs.Prelude.{◌≡◌, ◌++◌, OnOk, map, option_map, None};
ghost use Rattle.py_tree.specs.View.{expr_view, exprs_view, stmt_kind_view, stmts_view, arms_view, handlers_view, import_view, from_view};
ghost use Rattle.scope_rules.specs.Mentions.{mentions, mentions_of_all, targets_of_all, targets};
ghost use Rattle.scope_rules.specs.Uses as spec;
ghost use Rattle.scope_rules.specs.Uses.{uses_of, uses_of_arms, uses_of_handlers, annotates, imports, froms, import_binds, handler_binds, bound_by};
ghost use Rattle.scope_rules.specs.declared.mention.Role.TheVariants as role;

use crate::expressions::{mention, mention_all, mention_option};
use crate::mention::at;
use crate::targets::{target, target_all};
use place_ids::{LineNo, NameId, Sequence};
use py_tree::{Arm, Expr, FromPart, Handler, ImportPart, Stmt, StmtKind};
use scope_rules::{Mention, Role};
use std::alloc::AllocError;

/// Puts what statements say of names at the end. It does not go into functions and classes.
#[cycle(uses)]
#[tactic(auto, using(std::proofs::Common::append_assoc))]
pub(crate) fn uses(stmts: &[Stmt], out: &mut Sequence<Mention>) -> Result<(), AllocError>
    ensures { OnOk result (out.new ≡ out.old ++ spec.uses (stmts_view stmts.now)) }
{
    for stmt in stmts {
        uses_of_stmt(&stmt.kind, stmt.line, out)?;
    }
    Ok(())
}

#[cycle(uses)]
#[tactic(auto, using(std::proofs::Common::append_assoc))]
fn uses_of_stmt(
    kind: &StmtKind,
    line: LineNo,
    out: &mut Sequence<Mention>,
) -> Result<(), AllocError>
    ensures { OnOk result (out.new ≡ out.old ++ uses_of (stmt_kind_view kind.now) line) }
{
    match kind {
        StmtKind::Pass
        | StmtKind::Break
        | StmtKind::Continue
        | StmtKind::Ellipsis
        | StmtKind::Global(_) => Ok(()),
        StmtKind::Return(value) => mention_option(value, out),
        StmtKind::Raise(raised, cause) => {
            mention_option(raised, out)?;
            mention_option(cause, out)?;
            Ok(())
        }
        StmtKind::Assert(test, message) => {
            mention(test, out)?;
            mention_option(message, out)?;
            Ok(())
        }
        StmtKind::Import(parts) => uses_of_imports(parts, line, out),
        StmtKind::From(_, parts) => uses_of_froms(parts, line, out),
        StmtKind::Assign(targets, value) => uses_of_assign(targets, value, line, out),
        StmtKind::Augment(target, _, value) => uses_of_augment(target, value, line, out),
        StmtKind::Annotated(target, value) => uses_of_annotated(target, value, line, out),
        StmtKind::Expression(expr) => mention(expr, out),
        StmtKind::If(arms, otherwise) => {
            uses_of_ifs(arms, out)?;
            uses(otherwise, out)?;
            Ok(())
        }
        StmtKind::While(test, body) => {
            mention(test, out)?;
            uses(body, out)?;
            Ok(())
        }
        StmtKind::For(target, through, body) => {
            uses_of_augment(target, through, line, out)?;
            uses(body, out)?;
            Ok(())
        }
        StmtKind::Try(body, handlers, otherwise) => {
            uses(body, out)?;
            uses_of_excepts(handlers, out)?;
            uses(otherwise, out)?;
            Ok(())
        }
        StmtKind::Def(fun) => out.push(at(Role::Definition, fun.name, line)),
        StmtKind::Class(class) => out.push(at(Role::Definition, class.name, line)),
    }
}

#[cycle(uses)]
#[tactic(auto, using(std::proofs::Common::append_assoc))]
fn uses_of_ifs(arms: &[Arm], out: &mut Sequence<Mention>) -> Result<(), AllocError>
    ensures { OnOk result (out.new ≡ out.old ++ uses_of_arms (arms_view arms.now)) }
{
    for arm in arms {
        mention(&arm.test, out)?;
        uses(&arm.body, out)?;
    }
    Ok(())
}

#[cycle(uses)]
#[tactic(auto, using(std::proofs::Common::append_assoc))]
fn uses_of_excepts(handlers: &[Handler], out: &mut Sequence<Mention>) -> Result<(), AllocError>
    ensures { OnOk result (out.new ≡ out.old ++ uses_of_handlers (handlers_view handlers.now)) }
{
    for handler in handlers {
        mention_option(&handler.class, out)?;
        use_of_handler(handler.name, handler.line, out)?;
        uses(&handler.body, out)?;
    }
    Ok(())
}

fn use_of_handler(
    name: Option<NameId>,
    line: LineNo,
    out: &mut Sequence<Mention>,
) -> Result<(), AllocError>
    ensures { OnOk result (out.new ≡ out.old ++ handler_binds name line) }
{
    match name {
        Some(name) => out.push(at(Role::Value, name, line)),
        None => Ok(()),
    }
}

#[tactic(auto, using(std::proofs::Common::append_assoc))]
fn uses_of_assign(
    targets: &[Expr],
    value: &Expr,
    line: LineNo,
    out: &mut Sequence<Mention>,
) -> Result<(), AllocError>
    ensures { OnOk result (out.new ≡ out.old ++ mentions_of_all (exprs_view targets.now) ++ mentions (expr_view value.now) ++ targets_of_all role.Store line (exprs_view targets.now)) }
{
    mention_all(targets, out)?;
    mention(value, out)?;
    target_all(targets, Role::Store, line, out)?;
    Ok(())
}

// The same of one target.
#[tactic(auto, using(std::proofs::Common::append_assoc))]
fn uses_of_augment(
    single: &Expr,
    value: &Expr,
    line: LineNo,
    out: &mut Sequence<Mention>,
) -> Result<(), AllocError>
    ensures { OnOk result (out.new ≡ out.old ++ mentions (expr_view single.now) ++ mentions (expr_view value.now) ++ targets role.Store line (expr_view single.now)) }
{
    mention(single, out)?;
    mention(value, out)?;
    target(single, Role::Store, line, out)?;
    Ok(())
}

#[tactic(auto, using(std::proofs::Common::append_assoc))]
fn uses_of_annotated(
    single: &Expr,
    value: &Option<Expr>,
    line: LineNo,
    out: &mut Sequence<Mention>,
) -> Result<(), AllocError>
    ensures { OnOk result (out.new ≡ out.old ++ mentions (expr_view single.now) ++ annotates (expr_view single.now) (option_map expr_view value.now) line) }
{
    mention(single, out)?;
    match value {
        Some(value) => {
            mention(value, out)?;
            target(single, Role::Store, line, out)?;
            Ok(())
        }
        None => {
            target(single, Role::Annotation, line, out)?;
            Ok(())
        }
    }
}

#[tactic(auto, using(std::proofs::Common::append_assoc))]
fn uses_of_imports(
    parts: &[ImportPart],
    line: LineNo,
    out: &mut Sequence<Mention>,
) -> Result<(), AllocError>
    ensures { OnOk result (out.new ≡ out.old ++ imports (map import_view parts.now) line) }
{
    for part in parts {
        use_of_import(part.alias, &part.path, line, out)?;
    }
    Ok(())
}

fn use_of_import(
    alias: Option<NameId>,
    path: &[NameId],
    line: LineNo,
    out: &mut Sequence<Mention>,
) -> Result<(), AllocError>
    ensures { OnOk result (out.new ≡ out.old ++ import_binds alias path.now line) }
{
    match alias {
        Some(alias) => out.push(at(Role::Import, alias, line)),
        None => use_of_path(path, line, out),
    }
}

fn use_of_path(path: &[NameId], line: LineNo, out: &mut Sequence<Mention>) -> Result<(), AllocError>
    ensures { OnOk result (out.new ≡ out.old ++ import_binds None path.now line) }
{
    match path {
        [first, ..] => out.push(at(Role::Import, *first, line)),
        [] => Ok(()),
    }
}

#[tactic(auto, using(std::proofs::Common::append_assoc))]
fn uses_of_froms(
    parts: &[FromPart],
    line: LineNo,
    out: &mut Sequence<Mention>,
) -> Result<(), AllocError>
    ensures { OnOk result (out.new ≡ out.old ++ froms (map from_view parts.now) line) }
{
    for part in parts {
        let name = bound_from_part(part);
        out.push(at(Role::Import, name, line))?;
    }
    Ok(())
}

fn bound_from_part(part: &FromPart) -> NameId
    ensures { result ≡ bound_by part.now.alias part.now.name }
{
    match part.alias {
        Some(alias) => alias,
        None => part.name,
    }
}

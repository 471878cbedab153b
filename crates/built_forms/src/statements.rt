//! The lines of statements whose form isn't built.
ghost use Rattle.std.specs.Prelude.{◌≡◌, ◌++◌, OnOk, option_map};
ghost use Rattle.py_tree.specs.View.{expr_view, exprs_view, stmt_view, stmt_kind_view, stmts_view, arms_view, handlers_view, fun_view, class_view, member_view, members_view};
ghost use Rattle.built_forms.specs.Unbuilt.{in_expr, in_option, in_target, in_targets, in_stmt, in_kind, in_stmts, in_arms, in_handlers, in_fun, in_class, in_member, in_members};

use crate::expressions::{expression, option};
use crate::forms::is_built;
use crate::known::Known;
use crate::lines::put_unless;
use crate::targets::{target, target_list};
use place_ids::{LineNo, Sequence};
use py_tree::{Arm, ClassDef, Expr, FunDef, Handler, Member, Stmt, StmtKind};
use std::alloc::AllocError;

/// Puts the lines of a statement and its parts at the end.
#[cycle(statements)]
#[tactic(auto, using(std::proofs::Common::append_assoc))]
pub(crate) fn statement(
    known: &Known,
    stmt: &Stmt,
    out: &mut Sequence<LineNo>,
) -> Result<(), AllocError>
    ensures { OnOk result (out.new ≡ out.old ++ in_stmt known.now (stmt_view stmt.now)) }
{
    put_unless(is_built(&stmt.kind), stmt.line, out)?;
    parts(known, &stmt.kind, out)?;
    Ok(())
}

#[cycle(statements)]
#[tactic(auto, using(std::proofs::Common::append_assoc))]
fn parts(known: &Known, kind: &StmtKind, out: &mut Sequence<LineNo>) -> Result<(), AllocError>
    ensures { OnOk result (out.new ≡ out.old ++ in_kind known.now (stmt_kind_view kind.now)) }
{
    match kind {
        StmtKind::Pass
        | StmtKind::Break
        | StmtKind::Continue
        | StmtKind::Ellipsis
        | StmtKind::Import(_)
        | StmtKind::From(_, _)
        | StmtKind::Global(_) => Ok(()),
        StmtKind::Return(value) => option(known, value, out),
        StmtKind::Raise(raised, cause) => options(known, raised, cause, out),
        StmtKind::Assert(test, message) => assertion(known, test, message, out),
        StmtKind::Assign(targets, value) => assignment(known, targets, value, out),
        StmtKind::Augment(single, _, value) => two(known, single, value, out),
        StmtKind::Annotated(single, value) => annotation(known, single, value, out),
        StmtKind::Expression(expr) => expression(known, expr, out),
        StmtKind::If(choices, otherwise) => {
            arms(known, choices, out)?;
            block(known, otherwise, out)?;
            Ok(())
        }
        StmtKind::While(test, body) => {
            expression(known, test, out)?;
            block(known, body, out)?;
            Ok(())
        }
        StmtKind::For(single, through, body) => {
            header(known, single, through, out)?;
            block(known, body, out)?;
            Ok(())
        }
        StmtKind::Try(body, clauses, otherwise) => {
            block(known, body, out)?;
            handlers(known, clauses, out)?;
            block(known, otherwise, out)?;
            Ok(())
        }
        StmtKind::Def(fun) => function(known, fun, out),
        StmtKind::Class(class) => class_body(known, class, out),
    }
}

#[cycle(statements)]
#[tactic(auto, using(std::proofs::Common::append_assoc))]
fn block(known: &Known, stmts: &[Stmt], out: &mut Sequence<LineNo>) -> Result<(), AllocError>
    ensures { OnOk result (out.new ≡ out.old ++ in_stmts known.now (stmts_view stmts.now)) }
{
    for stmt in stmts {
        statement(known, stmt, out)?;
    }
    Ok(())
}

#[cycle(statements)]
#[tactic(auto, using(std::proofs::Common::append_assoc))]
fn arms(known: &Known, arms: &[Arm], out: &mut Sequence<LineNo>) -> Result<(), AllocError>
    ensures { OnOk result (out.new ≡ out.old ++ in_arms known.now (arms_view arms.now)) }
{
    for arm in arms {
        expression(known, &arm.test, out)?;
        block(known, &arm.body, out)?;
    }
    Ok(())
}

#[cycle(statements)]
#[tactic(auto, using(std::proofs::Common::append_assoc))]
fn handlers(
    known: &Known,
    handlers: &[Handler],
    out: &mut Sequence<LineNo>,
) -> Result<(), AllocError>
    ensures { OnOk result (out.new ≡ out.old ++ in_handlers known.now (handlers_view handlers.now)) }
{
    for handler in handlers {
        out.push(handler.line)?;
        option(known, &handler.class, out)?;
        block(known, &handler.body, out)?;
    }
    Ok(())
}

#[cycle(statements)]
#[tactic(auto, using(std::proofs::Common::append_assoc))]
fn function(known: &Known, fun: &FunDef, out: &mut Sequence<LineNo>) -> Result<(), AllocError>
    ensures { OnOk result (out.new ≡ out.old ++ in_fun known.now (fun_view fun.now)) }
{
    out.push(fun.line)?;
    block(known, &fun.body, out)?;
    Ok(())
}

#[cycle(statements)]
#[tactic(auto, using(std::proofs::Common::append_assoc))]
fn class_body(known: &Known, class: &ClassDef, out: &mut Sequence<LineNo>) -> Result<(), AllocError>
    ensures { OnOk result (out.new ≡ out.old ++ in_class known.now (class_view class.now)) }
{
    out.push(class.line)?;
    members(known, &class.members, out)?;
    Ok(())
}

#[cycle(statements)]
#[tactic(auto, using(std::proofs::Common::append_assoc))]
fn members(known: &Known, members: &[Member], out: &mut Sequence<LineNo>) -> Result<(), AllocError>
    ensures { OnOk result (out.new ≡ out.old ++ in_members known.now (members_view members.now)) }
{
    for member in members {
        part(known, member, out)?;
    }
    Ok(())
}

#[cycle(statements)]
#[tactic(auto, using(std::proofs::Common::append_assoc))]
fn part(known: &Known, member: &Member, out: &mut Sequence<LineNo>) -> Result<(), AllocError>
    ensures { OnOk result (out.new ≡ out.old ++ in_member known.now (member_view member.now)) }
{
    match member {
        Member::Pass | Member::Ellipsis | Member::Text => Ok(()),
        Member::Value(_, value, line) => {
            out.push(*line)?;
            expression(known, value, out)?;
            Ok(())
        }
        Member::Annotated(_, value, line) => {
            out.push(*line)?;
            option(known, value, out)?;
            Ok(())
        }
        Member::Method(fun) => function(known, fun, out),
    }
}

#[tactic(auto, using(std::proofs::Common::append_assoc))]
fn options(
    known: &Known,
    first: &Option<Expr>,
    second: &Option<Expr>,
    out: &mut Sequence<LineNo>,
) -> Result<(), AllocError>
    ensures { OnOk result (out.new ≡ out.old ++ in_option known.now (option_map expr_view first.now) ++ in_option known.now (option_map expr_view second.now)) }
{
    option(known, first, out)?;
    option(known, second, out)?;
    Ok(())
}

#[tactic(auto, using(std::proofs::Common::append_assoc))]
fn two(
    known: &Known,
    first: &Expr,
    second: &Expr,
    out: &mut Sequence<LineNo>,
) -> Result<(), AllocError>
    ensures { OnOk result (out.new ≡ out.old ++ in_expr known.now (expr_view first.now) ++ in_expr known.now (expr_view second.now)) }
{
    expression(known, first, out)?;
    expression(known, second, out)?;
    Ok(())
}

#[tactic(auto, using(std::proofs::Common::append_assoc))]
fn assertion(
    known: &Known,
    test: &Expr,
    message: &Option<Expr>,
    out: &mut Sequence<LineNo>,
) -> Result<(), AllocError>
    ensures { OnOk result (out.new ≡ out.old ++ in_expr known.now (expr_view test.now) ++ in_option known.now (option_map expr_view message.now)) }
{
    expression(known, test, out)?;
    option(known, message, out)?;
    Ok(())
}

#[tactic(auto, using(std::proofs::Common::append_assoc))]
fn assignment(
    known: &Known,
    targets: &[Expr],
    value: &Expr,
    out: &mut Sequence<LineNo>,
) -> Result<(), AllocError>
    ensures { OnOk result (out.new ≡ out.old ++ in_targets known.now (exprs_view targets.now) ++ in_expr known.now (expr_view value.now)) }
{
    target_list(known, targets, out)?;
    expression(known, value, out)?;
    Ok(())
}

#[tactic(auto, using(std::proofs::Common::append_assoc))]
fn annotation(
    known: &Known,
    single: &Expr,
    value: &Option<Expr>,
    out: &mut Sequence<LineNo>,
) -> Result<(), AllocError>
    ensures { OnOk result (out.new ≡ out.old ++ in_target known.now (expr_view single.now) ++ in_option known.now (option_map expr_view value.now)) }
{
    target(known, single, out)?;
    option(known, value, out)?;
    Ok(())
}

// A `for`, but for its body.
#[tactic(auto, using(std::proofs::Common::append_assoc))]
fn header(
    known: &Known,
    single: &Expr,
    through: &Expr,
    out: &mut Sequence<LineNo>,
) -> Result<(), AllocError>
    ensures { OnOk result (out.new ≡ out.old ++ in_target known.now (expr_view single.now) ++ in_expr known.now (expr_view through.now)) }
{
    target(known, single, out)?;
    expression(known, through, out)?;
    Ok(())
}

//! The jumps of a body.
ghost use Rattle.std.specs.Prelude.{◌≡◌, ◌++◌, OnOk, option_map};
ghost use Rattle.py_tree.specs.View.{expr_view, stmt_kind_view, stmts_view, arms_view, handlers_view};
ghost use Rattle.scope_rules.specs.Jumps as spec;
ghost use Rattle.scope_rules.specs.Jumps.{jumps_of, jumps_of_arms, jumps_of_handlers, exits, returns};

use place_ids::{LineNo, Sequence};
use py_tree::{Arm, Expr, Handler, Stmt, StmtKind};
use scope_rules::{Jump, JumpSort};
use std::alloc::AllocError;

/// Puts the jumps of statements at the end, where a loop is around them or not.
#[cycle(jumps)]
#[tactic(auto, using(std::proofs::Common::append_assoc))]
pub(crate) fn jumps(
    looped: bool,
    stmts: &[Stmt],
    out: &mut Sequence<Jump>,
) -> Result<(), AllocError>
    ensures { OnOk result (out.new ≡ out.old ++ spec.jumps looped (stmts_view stmts.now)) }
{
    for stmt in stmts {
        jumps_of_stmt(looped, &stmt.kind, stmt.line, out)?;
    }
    Ok(())
}

#[cycle(jumps)]
#[tactic(auto, using(std::proofs::Common::append_assoc))]
fn jumps_of_stmt(
    looped: bool,
    kind: &StmtKind,
    line: LineNo,
    out: &mut Sequence<Jump>,
) -> Result<(), AllocError>
    ensures { OnOk result (out.new ≡ out.old ++ jumps_of looped (stmt_kind_view kind.now) line) }
{
    match kind {
        StmtKind::Break | StmtKind::Continue => exit(looped, line, out),
        StmtKind::Return(value) => leave(value, line, out),
        StmtKind::If(arms, otherwise) => {
            jumps_of_ifs(looped, arms, out)?;
            jumps(looped, otherwise, out)?;
            Ok(())
        }
        StmtKind::While(_, body) | StmtKind::For(_, _, body) => jumps(true, body, out),
        StmtKind::Try(body, handlers, otherwise) => {
            jumps(looped, body, out)?;
            jumps_of_excepts(looped, handlers, out)?;
            jumps(looped, otherwise, out)?;
            Ok(())
        }
        StmtKind::Pass
        | StmtKind::Ellipsis
        | StmtKind::Raise(_, _)
        | StmtKind::Assert(_, _)
        | StmtKind::Import(_)
        | StmtKind::From(_, _)
        | StmtKind::Global(_)
        | StmtKind::Assign(_, _)
        | StmtKind::Augment(_, _, _)
        | StmtKind::Annotated(_, _)
        | StmtKind::Expression(_)
        | StmtKind::Def(_)
        | StmtKind::Class(_) => Ok(()),
    }
}

#[cycle(jumps)]
#[tactic(auto, using(std::proofs::Common::append_assoc))]
fn jumps_of_ifs(looped: bool, arms: &[Arm], out: &mut Sequence<Jump>) -> Result<(), AllocError>
    ensures { OnOk result (out.new ≡ out.old ++ jumps_of_arms looped (arms_view arms.now)) }
{
    for arm in arms {
        jumps(looped, &arm.body, out)?;
    }
    Ok(())
}

#[cycle(jumps)]
#[tactic(auto, using(std::proofs::Common::append_assoc))]
fn jumps_of_excepts(
    looped: bool,
    handlers: &[Handler],
    out: &mut Sequence<Jump>,
) -> Result<(), AllocError>
    ensures { OnOk result (out.new ≡ out.old ++ jumps_of_handlers looped (handlers_view handlers.now)) }
{
    for handler in handlers {
        jumps(looped, &handler.body, out)?;
    }
    Ok(())
}

fn exit(looped: bool, line: LineNo, out: &mut Sequence<Jump>) -> Result<(), AllocError>
    ensures { OnOk result (out.new ≡ out.old ++ exits looped line) }
{
    if looped {
        return Ok(());
    }
    out.push(Jump {
        sort: JumpSort::Exit,
        line,
    })
}

fn leave(value: &Option<Expr>, line: LineNo, out: &mut Sequence<Jump>) -> Result<(), AllocError>
    ensures { OnOk result (out.new ≡ out.old ++ returns (option_map expr_view value.now) line) }
{
    let sort = match value {
        Some(_) => JumpSort::ReturnValue,
        None => JumpSort::Return,
    };
    out.push(Jump { sort, line })
}

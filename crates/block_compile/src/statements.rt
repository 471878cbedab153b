//! The code of statements, which leaves the stack as it was.
ghost use Rattle.std.specs.Prelude.{◌≡◌, ◌<◌, true, IfOk, OnOk, option_map};
ghost use Rattle.py_tree.specs.View.{expr_view, stmt_view, stmts_view, arm_view, arms_view, handler_view, handlers_view};
ghost use Rattle.stack_code.specs.declared.op.Op.TheVariants as op;
ghost use Rattle.tree_code.specs.Pieces.{◌⨾◌, fork, loop, nothing};
ghost use Rattle.tree_code.specs.Expressions.{value, put};
ghost use Rattle.tree_code.specs.Statements.{kind_code, body_code, arms_code, handlers_code, caught, uncaught, in_while, in_for};
ghost use Rattle.block_compile.specs.Emits.{Emits, Begins, BeginsAll, EndsOpen, Guards, Catches};
ghost use Rattle.expr_compile.specs.Growth.{Grows};
ghost use Rattle.block_compile.specs.PlaceOf.{standing, statement_code, clause_inner, clause_code};

use crate::place::Place;
use crate::plain::{push_break, push_plain};
use expr_compile::{Buffer, Names, push_put, push_value};
use place_ids::{LineNo, NameId};
use py_tree::{Arm, Expr, Handler, Stmt, StmtKind};
use sqlite_items::Items;
use stack_code::{Op, Range};
use std::alloc::AllocError;

/// Statements one after another.
#[cycle(statements)]
pub fn push_body(
    buffer: &mut Buffer,
    names: &Names<'_>,
    at: &Place,
    body: &[Stmt],
) -> Result<(), AllocError>
    ensures { OnOk result (Emits (body_code (standing names.now at.now) (stmts_view body.now)) at.now.again buffer.old buffer.new) }
{
    for stmt in body {
        push_statement(buffer, names, at, stmt)?;
    }
    Ok(())
}

#[cycle(statements)]
fn push_statement(
    buffer: &mut Buffer,
    names: &Names<'_>,
    at: &Place,
    stmt: &Stmt,
) -> Result<(), AllocError>
    ensures { OnOk result (Emits (statement_code (standing names.now at.now) (stmt_view stmt.now)) at.now.again buffer.old buffer.new) }
{
    let line = stmt.line;
    match &stmt.kind {
        StmtKind::If(arms, otherwise) => {
            let ends = push_arms(buffer, names, at, arms.as_slice(), line)?;
            push_body(buffer, names, at, otherwise.as_slice())?;
            buffer.land(ends.as_slice());
            Ok(())
        }
        StmtKind::While(test, body) => push_while(buffer, names, at, body.as_slice(), test, line),
        StmtKind::For(target, through, body) => {
            push_for(buffer, names, at, body.as_slice(), target, through, line)
        }
        StmtKind::Try(body, handlers, otherwise) => {
            let guard = push_guarded(buffer, names, at, body.as_slice())?;
            push_body(buffer, names, at, otherwise.as_slice())?;
            let end = push_catching(buffer, guard, at.depth, line)?;
            push_handlers(buffer, names, at, handlers.as_slice(), line)?;
            buffer.land(&[end]);
            Ok(())
        }
        StmtKind::Break => push_break(buffer, at.keeps, line),
        StmtKind::Continue => buffer.push(Op::Jump(at.again), line),
        _ => push_plain(buffer, names, at, &stmt.kind, line),
    }
}

// The arms, each with a jump to the end; the places of these jumps are the answer.
#[cycle(statements)]
fn push_arms(
    buffer: &mut Buffer,
    names: &Names<'_>,
    at: &Place,
    arms: &[Arm],
    line: LineNo,
) -> Result<Items<u32>, AllocError>
    ensures { IfOk result (λ ends. BeginsAll (arms_code (standing names.now at.now) line (arms_view arms.now)) at.now.again buffer.old buffer.new ends) }
{
    let mut ends: Items<u32> = Items::new(buffer.alloc());
    for arm in arms {
        let end = push_arm(buffer, names, at, arm, line)?;
        ends.push(end)?;
    }
    Ok(ends)
}

// A test with its body, and a jump to the end whose place is the answer.
#[cycle(statements)]
fn push_arm(
    buffer: &mut Buffer,
    names: &Names<'_>,
    at: &Place,
    arm: &Arm,
    line: LineNo,
) -> Result<u32, AllocError>
    ensures { let place = standing names.now at.now in
        IfOk result (λ end. Begins (λ rest. value place.locals (arm_view arm.now).0 ⨾ fork line (body_code place (arm_view arm.now).1) rest) at.now.again buffer.old buffer.new end) }
{
    push_value(buffer, names, &arm.test)?;
    let jump = buffer.push_open(Op::JumpIfFalse(0), line)?;
    push_body(buffer, names, at, arm.body.as_slice())?;
    let end = buffer.push_open(Op::Jump(0), line)?;
    let next = buffer.place();
    buffer.aim(jump, Op::JumpIfFalse(next), line);
    Ok(end)
}

#[cycle(statements)]
fn push_while(
    buffer: &mut Buffer,
    names: &Names<'_>,
    at: &Place,
    body: &[Stmt],
    test: &Expr,
    line: LineNo,
) -> Result<(), AllocError>
    ensures { let place = standing names.now at.now in
        OnOk result (Grows (loop op.JumpIfFalse line (value place.locals (expr_view test.now)) (body_code (in_while place) (stmts_view body.now))) buffer.old buffer.new) }
{
    let again = buffer.place();
    push_value(buffer, names, test)?;
    let jump = buffer.push_open(Op::JumpIfFalse(0), line)?;
    let outer = buffer.open_loop();
    let inner = at.in_while(again);
    push_body(buffer, names, &inner, body)?;
    buffer.push(Op::Jump(again), line)?;
    buffer.close_loop(outer);
    let end = buffer.place();
    buffer.aim(jump, Op::JumpIfFalse(end), line);
    Ok(())
}

#[cycle(statements)]
fn push_for(
    buffer: &mut Buffer,
    names: &Names<'_>,
    at: &Place,
    body: &[Stmt],
    target: &Expr,
    through: &Expr,
    line: LineNo,
) -> Result<(), AllocError>
    ensures { let place = standing names.now at.now in
        OnOk result (Grows (value place.locals (expr_view through.now) ⨾ loop op.ForNext line nothing (put place.locals (expr_view target.now) ⨾ body_code (in_for place) (stmts_view body.now))) buffer.old buffer.new) }
{
    push_value(buffer, names, through)?;
    let again = buffer.push_open(Op::ForNext(0), line)?;
    let outer = buffer.open_loop();
    push_put(buffer, names, target)?;
    let inner = at.in_for(again)?;
    push_body(buffer, names, &inner, body)?;
    buffer.push(Op::Jump(again), line)?;
    buffer.close_loop(outer);
    let end = buffer.place();
    buffer.aim(again, Op::ForNext(end), line);
    Ok(())
}

// The range of a `try`: its number, the place of the first instruction of the body, and the place behind the body.
#[derive(Clone, Copy)]
struct Guard {
    number: usize,
    first: u32,
    past: u32,
}

// The body of a `try`, in a range that is yet to be set.
#[cycle(statements)]
fn push_guarded(
    buffer: &mut Buffer,
    names: &Names<'_>,
    at: &Place,
    body: &[Stmt],
) -> Result<Guard, AllocError>
    ensures { IfOk result (λ guard. Guards (body_code (standing names.now at.now) (stmts_view body.now)) at.now.again buffer.old buffer.new guard.number guard.first guard.past) }
{
    let first = buffer.place();
    let number = buffer.open_range()?;
    push_body(buffer, names, at, body)?;
    let past = buffer.place();
    Ok(Guard {
        number,
        first,
        past,
    })
}

// Behind the `else` body: a jump over the clauses, whose place is the answer. The clauses begin there, at this depth, with the exception.
fn push_catching(
    buffer: &mut Buffer,
    guard: Guard,
    depth: u32,
    line: LineNo,
) -> Result<u32, AllocError>
    ensures { IfOk result (λ end. Catches depth line guard.number guard.first guard.past buffer.old buffer.new end) }
{
    let end = buffer.push_open(Op::Jump(0), line)?;
    let goal = buffer.place();
    buffer.set_range(
        guard.number,
        Range {
            first: guard.first,
            past: guard.past,
            goal,
            depth,
        },
    );
    buffer.push(Op::Caught, line)?;
    Ok(end)
}

// The clauses in their order; where none matches, the exception goes on.
#[cycle(statements)]
fn push_handlers(
    buffer: &mut Buffer,
    names: &Names<'_>,
    at: &Place,
    handlers: &[Handler],
    line: LineNo,
) -> Result<(), AllocError>
    ensures { OnOk result (Emits (handlers_code (standing names.now at.now) line (handlers_view handlers.now)) at.now.again buffer.old buffer.new) }
{
    let mut ends: Items<u32> = Items::new(buffer.alloc());
    for handler in handlers {
        let end = push_handler(buffer, names, at, handler)?;
        ends.push(end)?;
    }
    buffer.push(Op::Pop, line)?;
    buffer.push(Op::Reraise, line)?;
    buffer.land(ends.as_slice());
    Ok(())
}

// A clause, which is passed by where the exception is none of its class, and a jump to the end whose place is the answer.
#[cycle(statements)]
fn push_handler(
    buffer: &mut Buffer,
    names: &Names<'_>,
    at: &Place,
    handler: &Handler,
) -> Result<u32, AllocError>
    ensures { IfOk result (λ end. Begins (clause_code (standing names.now at.now) (handler_view handler.now)) at.now.again buffer.old buffer.new end) }
{
    let line = handler.line;
    match &handler.class {
        None => push_clause(buffer, names, at, handler),
        Some(class) => {
            push_value(buffer, names, class)?;
            buffer.push(Op::MatchError, line)?;
            let jump = buffer.push_open(Op::JumpIfFalse(0), line)?;
            let end = push_clause(buffer, names, at, handler)?;
            let next = buffer.place();
            buffer.aim(jump, Op::JumpIfFalse(next), line);
            Ok(end)
        }
    }
}

// What a clause does with the exception on the top, and a jump to the end whose place is the answer.
#[cycle(statements)]
fn push_clause(
    buffer: &mut Buffer,
    names: &Names<'_>,
    at: &Place,
    handler: &Handler,
) -> Result<u32, AllocError>
    ensures { let place = standing names.now at.now in
        IfOk result (λ end. EndsOpen (clause_inner place (handler_view handler.now)) (handler_view handler.now).3 at.now.again buffer.old buffer.new end) }
{
    push_caught(buffer, names, handler.name, handler.line)?;
    push_body(buffer, names, at, handler.body.as_slice())?;
    push_uncaught(buffer, names, handler.name, handler.line)?;
    let end = buffer.push_open(Op::Jump(0), handler.line)?;
    Ok(end)
}

// The exception goes into the clause's name, or off the stack.
fn push_caught(
    buffer: &mut Buffer,
    names: &Names<'_>,
    name: Option<NameId>,
    line: LineNo,
) -> Result<(), AllocError>
    ensures { OnOk result (Grows (caught names.now line name) buffer.old buffer.new) }
{
    match name {
        Some(name) => buffer.push(names.store(name), line),
        None => buffer.push(Op::Pop, line),
    }
}

// The clause's name is unbound where the clause ends.
fn push_uncaught(
    buffer: &mut Buffer,
    names: &Names<'_>,
    name: Option<NameId>,
    line: LineNo,
) -> Result<(), AllocError>
    ensures { OnOk result (Grows (uncaught names.now line name) buffer.old buffer.new) }
{
    match name {
        Some(name) => buffer.push(names.forget(name), line),
        None => Ok(()),
    }
}

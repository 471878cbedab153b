//! The code of functions and of a module's body.
ghost use Rattle.std.specs.Prelude.{◌≡◌, ◌<◌, ◌^◌, ℕ, Some, false, length, map, slice_get, IfOk, OnOk};
ghost use Rattle.py_tree.specs.View.{fun_view, stmts_view, param_view};
ghost use Rattle.scope_rules.specs.Tables.{locals_of};
ghost use Rattle.stack_code.specs.Validity.{IsValid};
ghost use Rattle.tree_code.specs.Programs as spec;
ghost use Rattle.tree_code.specs.Programs.{params_code};
ghost use Rattle.expr_compile.specs.Finished.{code_of};
ghost use Rattle.expr_compile.specs.Growth.{Grows};

use crate::place::Place;
use crate::statements::push_body;
use expr_compile::{Buffer, Names};
use place_ids::{FunId, Id, LineNo, NameId};
use py_scope::Scopes;
use py_tree::{FunDef, Param, Stmt};
use stack_code::{CodeFault, ConstKind, Op, ValidCode, validate};
use std::alloc::{AllocError, Global};

// The place of statements outside any loop.
fn outermost(error: NameId) -> Place
    ensures { result ≡ record { error = error; depth = 0; again = 0; keeps = false } }
{
    Place {
        error,
        depth: 0,
        again: 0,
        keeps: false,
    }
}

// The code that has become of a buffer, which is valid, so that only memory can be wanting.
fn finished(
    alloc: Global,
    buffer: Buffer,
    locals: u32,
    params: u32,
) -> Result<ValidCode, AllocError>
    requires { IsValid (code_of buffer locals params) }
    ensures { IfOk result (λ valid. valid ≡ code_of buffer locals params) }
{
    let code = buffer.finish(locals, params)?;
    match validate(alloc, code) {
        Ok(code) => Ok(code),
        Err(CodeFault::JumpOut(_)) => unreachable!(),
        Err(CodeFault::DepthDiffers(_)) => unreachable!(),
        Err(CodeFault::Underflow(_)) => unreachable!(),
        Err(CodeFault::RangeOut(_)) => unreachable!(),
        Err(CodeFault::Memory) => Err(AllocError),
    }
}

// Each parameter goes to the local of its number.
fn push_params(buffer: &mut Buffer, params: &[Param], line: LineNo) -> Result<(), AllocError>
    requires { length params.now < 2 ^ 32 }
    ensures { OnOk result (Grows (params_code line 0 (map param_view params.now)) buffer.old buffer.new) }
{
    for (number, _) in params.iter().enumerate() {
        buffer.push(Op::Param(number as u32), line)?;
    }
    Ok(())
}

/// The code of a function, which has a number among the functions of the scopes: the parameters, its body, and None where the body ends.
pub fn fun_code(
    alloc: Global,
    scopes: &Scopes,
    error: NameId,
    fun: &FunDef,
    number: FunId,
) -> Result<ValidCode, AllocError>
    requires { slice_get scopes.now.locals number ≡ Some (locals_of (fun_view fun.now)) }
    ensures { IfOk result (λ valid. valid ≡ spec.fun_code error (fun_view fun.now)) }
{
    let params = fun.params.as_slice();
    if params.len() > u32::MAX as usize {
        return Err(AllocError);
    }
    let locals = scopes.local_count(number).unwrap_or(0);
    let names = Names::of_function(scopes, number);
    let mut buffer = Buffer::new(alloc);
    push_params(&mut buffer, params, fun.line)?;
    let at = outermost(error);
    push_body(&mut buffer, &names, &at, fun.body.as_slice())?;
    buffer.push(Op::Const(ConstKind::NoneValue), fun.line)?;
    buffer.push(Op::Return, fun.line)?;
    finished(alloc, buffer, locals, params.len() as u32)
}

/// The code of a module's body.
pub fn module_code(
    alloc: Global,
    scopes: &Scopes,
    error: NameId,
    body: &[Stmt],
) -> Result<ValidCode, AllocError>
    ensures { IfOk result (λ valid. valid ≡ spec.module_code error (stmts_view body.now)) }
{
    let names = Names::of_module(scopes);
    let mut buffer = Buffer::new(alloc);
    let at = outermost(error);
    push_body(&mut buffer, &names, &at, body)?;
    buffer.push(Op::End, last_line(body))?;
    finished(alloc, buffer, 0, 0)
}

// The line of the last statement, or 1.
fn last_line(body: &[Stmt]) -> LineNo
    ensures { result ≡ spec.last_line 1 (stmts_view body.now) }
{
    match body.last() {
        Some(stmt) => stmt.line,
        None => LineNo::new(1),
    }
}

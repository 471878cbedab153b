//! What the calls answer where memory is ample.
ghost use Rattle.std.specs.Prelude.{◌≡◌, ◌+◌, ◌-◌, ◌^◌, ◌<◌, length, IfOk};
ghost use Rattle.std.specs.List.{All};

mod blocks;

use super::*;
use place_ids::{Id, LineNo, NameId};
use sqlite_items::Items;
use std::alloc::{AllocError, Global};
use std::test::Fail;

fn code_of(alloc: Global, ops: Vec<Op>, ranges: &[Range]) -> Result<Code, AllocError>
    ensures { IfOk result (λ code. (code.ops ≡ ops.items) × (length code.lines ≡ length code.ops) × (code.ranges ≡ ranges.now)) }
{
    let lines = vec![in alloc; LineNo::new(1); ops.len()]?;
    Ok(Code {
        ops: Items::from_vec(ops),
        lines: Items::from_vec(lines),
        ranges: Items::from_slice(alloc, ranges)?,
        locals: 0,
        params: 0,
    })
}

fn validated(
    alloc: Global,
    ops: Vec<Op>,
    ranges: &[Range],
) -> Result<Result<ValidCode, CodeFault>, AllocError>
    requires short { length ops.items < 1000 }
    requires few { length ranges.now < 1000 }
    requires low { All (λ range. range.depth < 1000) ranges.now }
{
    let code = code_of(alloc, ops, ranges)?;
    Ok(validate(alloc, code))
}

fn fault_of(alloc: Global, ops: Vec<Op>, ranges: &[Range]) -> Result<Option<CodeFault>, AllocError>
    requires short { length ops.items < 1000 }
    requires few { length ranges.now < 1000 }
    requires low { All (λ range. range.depth < 1000) ranges.now }
{
    Ok(validated(alloc, ops, ranges)?.err())
}

#[test]
fn a_pop_on_an_empty_stack_underflows(rt: HostRuntime) -> Result<(), Fail> {
    let alloc = rt.alloc();
    let fault = fault_of(alloc, vec![in alloc; Op::Pop]?, &[])?;
    assert_eq!(rt; fault, Some(CodeFault::Underflow(0)));
    Ok(())
}

#[test]
fn a_jump_one_past_the_end_leaves_the_code(rt: HostRuntime) -> Result<(), Fail> {
    let alloc = rt.alloc();
    let ops = vec![in alloc; Op::Const(ConstKind::Int), Op::JumpIfTrue(2)]?;
    assert_eq!(rt; fault_of(alloc, ops, &[])?, Some(CodeFault::JumpOut(1)));
    Ok(())
}

#[test]
fn a_loop_that_pushes_has_two_depths(rt: HostRuntime) -> Result<(), Fail> {
    let alloc = rt.alloc();
    let ops = vec![in alloc; Op::Const(ConstKind::Int), Op::Jump(0)]?;
    assert_eq!(rt;
        fault_of(alloc, ops, &[])?,
        Some(CodeFault::DepthDiffers(0))
    );
    Ok(())
}

#[test]
fn an_underflow_behind_a_jump_is_seen(rt: HostRuntime) -> Result<(), Fail> {
    let alloc = rt.alloc();
    let ops = vec![in alloc; Op::Jump(2), Op::End, Op::Return]?;
    assert_eq!(rt; fault_of(alloc, ops, &[])?, Some(CodeFault::Underflow(2)));
    Ok(())
}

#[test]
fn a_handler_past_the_end_leaves_the_code(rt: HostRuntime) -> Result<(), Fail> {
    let alloc = rt.alloc();
    let range = Range {
        first: 0,
        past: 1,
        goal: 1,
        depth: 0,
    };
    let ops = vec![in alloc; Op::End]?;
    assert_eq!(rt;
        fault_of(alloc, ops, &[range])?,
        Some(CodeFault::RangeOut(0))
    );
    Ok(())
}

#[test]
fn an_assignment_stacks_one_slot(rt: HostRuntime) -> Result<(), Fail> {
    let alloc = rt.alloc();
    let ops = vec![in alloc;
        Op::Const(ConstKind::Int),
        Op::StoreName(NameId::new(0)),
        Op::End,
        Op::Pop,
    ]?;
    let code = validated(alloc, ops, &[])?
        .ok()
        .expect(&rt, "the code is valid");
    let depths = [code.depth_at(0), code.depth_at(1), code.depth_at(2)];
    assert_eq!(rt; depths, [Some(0), Some(1), Some(0)]);
    assert_eq!(rt; (code.depth_at(3), code.depth_at(4)), (None, None));
    assert_eq!(rt; code.code().ops.len(), 4);
    Ok(())
}

#[test]
fn a_handler_has_the_depth_of_its_range(rt: HostRuntime) -> Result<(), Fail> {
    let alloc = rt.alloc();
    let range = Range {
        first: 1,
        past: 2,
        goal: 3,
        depth: 5,
    };
    let ops = vec![in alloc;
        Op::Const(ConstKind::Int),
        Op::Pop,
        Op::End,
        Op::Caught,
        Op::Raise,
    ]?;
    let code = validated(alloc, ops, &[range])?
        .ok()
        .expect(&rt, "the code is valid");
    assert_eq!(rt; (code.depth_at(3), code.depth_at(4)), (Some(5), Some(6)));
    Ok(())
}

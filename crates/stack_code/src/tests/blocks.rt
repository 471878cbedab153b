//! The blocks of a few codes, where memory is ample.
use super::validated;
use crate::{ConstKind, Op, Range, blocks};
use std::test::Fail;

#[test]
fn straight_code_is_one_run(rt: HostRuntime) -> Result<(), Fail> {
    let alloc = rt.alloc();
    let ops = vec![in alloc; Op::Const(ConstKind::Int), Op::StoreLocal(0), Op::End]?;
    let code = validated(alloc, ops, &[])?
        .ok()
        .expect(&rt, "the code is valid");
    let found = blocks(alloc, &code)?;
    assert_eq!(rt; found.ranges(), [(0, 3)].as_slice());
    Ok(())
}

#[test]
fn empty_code_has_no_run(rt: HostRuntime) -> Result<(), Fail> {
    let alloc = rt.alloc();
    let code = validated(alloc, Vec::new(alloc), &[])?
        .ok()
        .expect(&rt, "the code is valid");
    let found = blocks(alloc, &code)?;
    assert_eq!(rt; found.ranges().len(), 0);
    Ok(())
}

#[test]
fn a_jump_ahead_ends_its_run_and_begins_one(rt: HostRuntime) -> Result<(), Fail> {
    let alloc = rt.alloc();
    let ops = vec![in alloc;
        Op::Const(ConstKind::TrueValue),
        Op::JumpIfFalse(4),
        Op::Const(ConstKind::Int),
        Op::StoreLocal(0),
        Op::End,
    ]?;
    let code = validated(alloc, ops, &[])?
        .ok()
        .expect(&rt, "the code is valid");
    let found = blocks(alloc, &code)?;
    assert_eq!(rt; found.ranges(), [(0, 2), (2, 4), (4, 5)].as_slice());
    Ok(())
}

#[test]
fn a_jump_back_begins_a_run_where_it_leads(rt: HostRuntime) -> Result<(), Fail> {
    let alloc = rt.alloc();
    let ops = vec![in alloc;
        Op::Const(ConstKind::Int),
        Op::StoreLocal(0),
        Op::Const(ConstKind::TrueValue),
        Op::JumpIfTrue(2),
        Op::End,
    ]?;
    let code = validated(alloc, ops, &[])?
        .ok()
        .expect(&rt, "the code is valid");
    let found = blocks(alloc, &code)?;
    assert_eq!(rt; found.ranges(), [(0, 2), (2, 4), (4, 5)].as_slice());
    Ok(())
}

#[test]
fn a_jump_to_the_next_place_goes_on(rt: HostRuntime) -> Result<(), Fail> {
    let alloc = rt.alloc();
    let ops = vec![in alloc; Op::Jump(1), Op::End]?;
    let code = validated(alloc, ops, &[])?
        .ok()
        .expect(&rt, "the code is valid");
    let found = blocks(alloc, &code)?;
    assert_eq!(rt; found.ranges(), [(0, 2)].as_slice());
    Ok(())
}

#[test]
fn the_handler_of_the_inner_range_is_entered(rt: HostRuntime) -> Result<(), Fail> {
    let alloc = rt.alloc();
    let outer = Range {
        first: 0,
        past: 4,
        goal: 7,
        depth: 0,
    };
    let inner = Range {
        first: 2,
        past: 3,
        goal: 5,
        depth: 0,
    };
    let ops = vec![in alloc;
        Op::Const(ConstKind::Int),
        Op::StoreLocal(0),
        Op::LoadLocal(0),
        Op::Pop,
        Op::End,
        Op::Caught,
        Op::Pop,
        Op::End,
    ]?;
    let code = validated(alloc, ops, &[outer, inner])?
        .ok()
        .expect(&rt, "the code is valid");
    let found = blocks(alloc, &code)?;
    assert_eq!(rt; found.ranges(), [(0, 3), (3, 5), (5, 8)].as_slice());
    assert_eq!(rt;
        (code.handler_at(1), code.handler_at(2)),
        (Some(outer), Some(inner))
    );
    assert_eq!(rt; (code.handler_at(4), code.handler_at(8)), (None, None));
    Ok(())
}

#[test]
fn a_handler_begins_a_run_in_the_middle_of_code(rt: HostRuntime) -> Result<(), Fail> {
    let alloc = rt.alloc();
    let range = Range {
        first: 0,
        past: 1,
        goal: 3,
        depth: 0,
    };
    let ops = vec![in alloc; Op::LoadLocal(0), Op::Pop, Op::ForgetLocal(0), Op::End]?;
    let code = validated(alloc, ops, &[range])?
        .ok()
        .expect(&rt, "the code is valid");
    let found = blocks(alloc, &code)?;
    assert_eq!(rt; found.ranges(), [(0, 1), (1, 3), (3, 4)].as_slice());
    Ok(())
}

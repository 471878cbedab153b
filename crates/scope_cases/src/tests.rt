//! What is answered for trees that are made.
mod build;
mod outline;
mod rows;
mod tables;

use outline::{Row, module_of};
use place_ids::Id;
use py_scope::{ScopeFault, scope};
use scope_rules::Rule;
use std::alloc::Global;
use std::test::Fail;

// The rule and the line that are told for an outline.
fn told(alloc: Global, row: &Row) -> Result<Option<(Rule, u32)>, Fail> {
    let module = module_of(alloc, row.lines)?;
    match scope(alloc, &module) {
        Ok(_) => Ok(None),
        Err(fault) => Ok(rule_of(fault)),
    }
}

fn rule_of(fault: ScopeFault) -> Option<(Rule, u32)> {
    let (rule, line) = match fault {
        ScopeFault::Rebound(line) => (Rule::Rebound, line),
        ScopeFault::BuiltinBound(line) => (Rule::BuiltinBound, line),
        ScopeFault::BaseUnknown(line) => (Rule::BaseUnknown, line),
        ScopeFault::DuplicateParam(line) => (Rule::DuplicateParam, line),
        ScopeFault::BreakOutsideLoop(line) => (Rule::BreakOutsideLoop, line),
        ScopeFault::ReturnOutside(line) => (Rule::ReturnOutside, line),
        ScopeFault::InitReturns(line) => (Rule::InitReturns, line),
        ScopeFault::SuperUse(line) => (Rule::SuperUse, line),
        ScopeFault::MethodRule(line) => (Rule::MethodRule, line),
        ScopeFault::Memory => return None,
    };
    Some((rule, line.number()))
}

// The first row that is answered otherwise than it should be, with what is told there.
fn first_other(alloc: Global, rows: &[Row]) -> Result<Option<(usize, Option<(Rule, u32)>)>, Fail> {
    for (place, row) in rows.iter().enumerate() {
        let told = told(alloc, row)?;
        if told != row.want {
            return Ok(Some((place, told)));
        }
    }
    Ok(None)
}

#[test]
fn names_of_functions_and_classes_are_bound_once(rt: HostRuntime) -> Result<(), Fail> {
    assert_eq!(rt; first_other(rt.alloc(), &rows::REBOUND)?, None);
    Ok(())
}

#[test]
fn builtin_names_are_not_bound(rt: HostRuntime) -> Result<(), Fail> {
    assert_eq!(rt; first_other(rt.alloc(), &rows::BUILTIN_BOUND)?, None);
    Ok(())
}

#[test]
fn bases_are_known(rt: HostRuntime) -> Result<(), Fail> {
    assert_eq!(rt; first_other(rt.alloc(), &rows::BASE_UNKNOWN)?, None);
    Ok(())
}

#[test]
fn parameters_stand_once(rt: HostRuntime) -> Result<(), Fail> {
    assert_eq!(rt; first_other(rt.alloc(), &rows::DUPLICATE_PARAM)?, None);
    Ok(())
}

#[test]
fn breaks_stand_in_loops(rt: HostRuntime) -> Result<(), Fail> {
    assert_eq!(rt; first_other(rt.alloc(), &rows::BREAK_OUTSIDE_LOOP)?, None);
    Ok(())
}

#[test]
fn returns_stand_in_functions(rt: HostRuntime) -> Result<(), Fail> {
    assert_eq!(rt; first_other(rt.alloc(), &rows::RETURN_OUTSIDE)?, None);
    Ok(())
}

#[test]
fn init_returns_no_value(rt: HostRuntime) -> Result<(), Fail> {
    assert_eq!(rt; first_other(rt.alloc(), &rows::INIT_RETURNS)?, None);
    Ok(())
}

#[test]
fn super_stands_where_the_first_parameter_stays(rt: HostRuntime) -> Result<(), Fail> {
    assert_eq!(rt; first_other(rt.alloc(), &rows::SUPER_USE)?, None);
    Ok(())
}

#[test]
fn class_bodies_keep_their_rules(rt: HostRuntime) -> Result<(), Fail> {
    assert_eq!(rt; first_other(rt.alloc(), &rows::METHOD_RULE)?, None);
    Ok(())
}

#[test]
fn the_first_line_and_there_the_first_rule_is_told(rt: HostRuntime) -> Result<(), Fail> {
    assert_eq!(rt; first_other(rt.alloc(), &rows::MEETING)?, None);
    Ok(())
}

//! What the call writes where memory is ample.
mod draft;
mod layout;
mod sketch;
mod types;
mod worked;

use crate::stub_text;
use crate::tests::draft::{named, stub, term};
use crate::tests::sketch::Row;
use crate::tests::types::Typed;
use std::alloc::Global;
use std::process::Abort;
use std::test::Fail;
use type_terms::normal;

fn is_written(alloc: Global, row: &Row) -> Result<bool, Fail> {
    let stub = stub(alloc, row)?;
    let text = stub_text(alloc, &stub)?;
    Ok(text.bytes() == row.text.as_bytes())
}

fn check_rows(rt: &impl Abort, alloc: Global, rows: &[Row]) -> Result<(), Fail> {
    for row in rows {
        assert!(rt; is_written(alloc, row)?, "{}", row.text);
    }
    Ok(())
}

fn is_typed(alloc: Global, typed: &Typed) -> Result<bool, Fail> {
    let spelled = term(alloc, &typed.0)?;
    let stub = named(alloc, "x", normal(alloc, spelled)?)?;
    let text = stub_text(alloc, &stub)?;
    Ok(text.bytes() == typed.1.as_bytes())
}

fn check_types(rt: &impl Abort, alloc: Global, rows: &[Typed]) -> Result<(), Fail> {
    for typed in rows {
        assert!(rt; is_typed(alloc, typed)?, "{}", typed.1);
    }
    Ok(())
}

#[test]
fn small_modules_have_these_stubs(rt: HostRuntime) -> Result<(), Fail> {
    check_rows(&rt, rt.alloc(), &worked::PLAIN)?;
    check_rows(&rt, rt.alloc(), &worked::FURTHER)?;
    check_rows(&rt, rt.alloc(), &worked::WITH_CLASSES)
}

#[test]
fn names_and_modules_are_sorted_by_their_bytes(rt: HostRuntime) -> Result<(), Fail> {
    check_rows(&rt, rt.alloc(), &layout::ORDERS)
}

#[test]
fn classes_stand_in_order_without_their_methods_names(rt: HostRuntime) -> Result<(), Fail> {
    check_rows(&rt, rt.alloc(), &layout::CLASSES)
}

#[test]
fn types_are_written_with_what_they_import(rt: HostRuntime) -> Result<(), Fail> {
    check_types(&rt, rt.alloc(), &types::UNIONS)?;
    check_types(&rt, rt.alloc(), &types::NESTED)
}

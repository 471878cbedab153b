//! The rows of operators, what names stand for, and the texts of faults.
mod shapes;
mod tables;

use abstract_shapes::Shapes;
use instruction_rows::{fault_text, readings, row_of};
use place_ids::{BinOp, CompareOp, Id, NameId, Names, ShapeId, SiteId, UnaryOp};
use program_tables::Program;
use py_scope::scope;
use py_tree::Module;
use shapes::{ANY, LETTERS, OUTSIDE, STUB_INSTANCE, all_shapes};
use sqlite_items::Items;
use stack_code::{Code, ConstKind, Op, validate};
use std::alloc::{AllocError, Global};
use std::test::Fail;
use tables::{
    ADDITION, ARITHMETIC, BITWISE, DIFFERENCE, DIVISION, EQUALITY, IDENTITY, MEMBERSHIP,
    MULTIPLICATION, ORDER, POWER, REMAINDER, Rows, SHIFTS,
};
use world_rules::{Fault, Thread, Transfer, TransferRow, Yield};

// The letter of what comes.
fn letter(row: &TransferRow) -> u8 {
    if row.fault.is_some() {
        return b'.';
    }
    match row.results.as_slice() {
        [] => b'-',
        [Yield::Int] => b'i',
        [Yield::Float] => b'f',
        [Yield::Int, Yield::Float] => b'p',
        [Yield::Str] => b's',
        [Yield::Bytes] => b'y',
        [Yield::TrueValue] => b'T',
        [Yield::FalseValue] => b'F',
        [Yield::TrueValue, Yield::FalseValue] => b'B',
        [Yield::Ext] => b'e',
        [Yield::Any] => b'a',
        _ => b'?',
    }
}

fn row_in(rows: Rows, left: u8) -> &'static [u8; 13] {
    for (kind, cells) in rows {
        if *kind == left {
            return cells;
        }
    }
    b"............."
}

// How many cells of a table differ from what a rule gives.
fn differing(alloc: Global, shapes: &Shapes, rule: &Transfer, rows: Rows) -> Result<u32, Fail> {
    let mut count = 0u32;
    for (left, name) in LETTERS.iter().enumerate() {
        for (right, cell) in row_in(rows, *name).iter().enumerate() {
            let read = [ShapeId::new(left as u32), ShapeId::new(right as u32)];
            let row = row_of(alloc, shapes, *rule, &read)?;
            if letter(&row) != *cell || row.unchecked {
                count = count.saturating_add(1);
            }
        }
    }
    Ok(count)
}

#[test]
fn operators_give_what_the_tables_say(rt: HostRuntime) -> Result<(), Fail> {
    let alloc = rt.alloc();
    let shapes = all_shapes(alloc)?;
    let site = SiteId::new(0);
    let tables = [
        (BinOp::Add, ADDITION),
        (BinOp::Sub, ARITHMETIC),
        (BinOp::Mul, MULTIPLICATION),
        (BinOp::Div, DIVISION),
        (BinOp::FloorDiv, ARITHMETIC),
        (BinOp::Mod, REMAINDER),
        (BinOp::MatMul, &[]),
        (BinOp::Pow, POWER),
        (BinOp::ShiftLeft, SHIFTS),
        (BinOp::ShiftRight, SHIFTS),
        (BinOp::BitAnd, BITWISE),
        (BinOp::BitOr, BITWISE),
        (BinOp::BitXor, BITWISE),
    ];
    for (op, rows) in tables.iter() {
        let combines = Transfer::Combines(*op, site);
        assert_eq!(rt; differing(alloc, &shapes, &combines, rows)?, 0);
        let changes = Transfer::Changes(*op, site);
        assert_eq!(rt; differing(alloc, &shapes, &changes, rows)?, 0);
    }
    Ok(())
}

#[test]
fn comparisons_give_what_the_tables_say(rt: HostRuntime) -> Result<(), Fail> {
    let alloc = rt.alloc();
    let shapes = all_shapes(alloc)?;
    let tables = [
        (CompareOp::Less, ORDER),
        (CompareOp::Greater, ORDER),
        (CompareOp::LessEq, ORDER),
        (CompareOp::GreaterEq, ORDER),
        (CompareOp::Equal, EQUALITY),
        (CompareOp::NotEqual, EQUALITY),
        (CompareOp::Is, IDENTITY),
        (CompareOp::IsNot, DIFFERENCE),
        (CompareOp::Within, MEMBERSHIP),
        (CompareOp::NotWithin, MEMBERSHIP),
    ];
    for (op, rows) in tables.iter() {
        let compares = Transfer::Compares(*op);
        assert_eq!(rt; differing(alloc, &shapes, &compares, rows)?, 0);
    }
    Ok(())
}

// How many cells differ from what a rule gives that reads one shape.
fn differing_signs(
    alloc: Global,
    shapes: &Shapes,
    rule: &Transfer,
    cells: &[u8; 13],
) -> Result<u32, Fail> {
    let mut count = 0u32;
    for (kind, cell) in cells.iter().enumerate() {
        let row = row_of(alloc, shapes, *rule, &[ShapeId::new(kind as u32)])?;
        if letter(&row) != *cell || row.unchecked {
            count = count.saturating_add(1);
        }
    }
    Ok(count)
}

#[test]
fn signs_give_what_the_tables_say(rt: HostRuntime) -> Result<(), Fail> {
    let alloc = rt.alloc();
    let shapes = all_shapes(alloc)?;
    let rows = [
        (Transfer::Applies(UnaryOp::Plus), b".iif........."),
        (Transfer::Applies(UnaryOp::Minus), b".iif........."),
        (Transfer::Applies(UnaryOp::Invert), b".ii.........."),
        (Transfer::Negates, b"TFBBBBBBBBBBF"),
    ];
    for (rule, cells) in rows.iter() {
        assert_eq!(rt; differing_signs(alloc, &shapes, rule, cells)?, 0);
    }
    Ok(())
}

// What comes of two shapes, and whether the line is unchecked.
fn of_two(
    alloc: Global,
    shapes: &Shapes,
    rule: &Transfer,
    left: u32,
    right: u32,
) -> Result<(u8, bool), Fail> {
    let read = [ShapeId::new(left), ShapeId::new(right)];
    let row = row_of(alloc, shapes, *rule, &read)?;
    Ok((letter(&row), row.unchecked))
}

#[test]
fn operands_that_are_not_followed_mark_the_line(rt: HostRuntime) -> Result<(), Fail> {
    let alloc = rt.alloc();
    let shapes = all_shapes(alloc)?;
    let int = 2;
    let site = SiteId::new(0);
    let rules = [
        Transfer::Combines(BinOp::Mod, site),
        Transfer::Changes(BinOp::Add, site),
        Transfer::Compares(CompareOp::Less),
    ];
    let within = Transfer::Compares(CompareOp::NotWithin);
    let equal = Transfer::Compares(CompareOp::Equal);
    for (number, given) in [(STUB_INSTANCE, b'e'), (OUTSIDE, b'e'), (ANY, b'a')] {
        for rule in rules.iter() {
            assert_eq!(rt; of_two(alloc, &shapes, rule, int, number)?, (given, true));
            assert_eq!(rt; of_two(alloc, &shapes, rule, number, int)?, (given, true));
        }
        assert_eq!(rt; of_two(alloc, &shapes, &within, int, number)?, (b'B', true));
        assert_eq!(rt; of_two(alloc, &shapes, &equal, int, number)?, (b'B', false));
        let sign = Transfer::Applies(UnaryOp::Minus);
        let row = row_of(alloc, &shapes, sign, &[ShapeId::new(number)])?;
        assert_eq!(rt; (letter(&row), row.unchecked), (given, true));
    }
    Ok(())
}

#[test]
fn none_is_no_instance_of_a_stub(rt: HostRuntime) -> Result<(), Fail> {
    let alloc = rt.alloc();
    let shapes = all_shapes(alloc)?;
    let none = 0;
    let is = Transfer::Compares(CompareOp::Is);
    for (number, given) in [(STUB_INSTANCE, b'F'), (OUTSIDE, b'B'), (ANY, b'B')] {
        assert_eq!(rt; of_two(alloc, &shapes, &is, none, number)?, (given, false));
    }
    Ok(())
}

// A program without code of its own, with the names `nope`, `abs`, `len`, `__name__` and `base_init` of which it binds none.
fn without_code(alloc: Global) -> Result<Program, Fail> {
    let mut names = Names::new(alloc);
    for name in ["nope", "abs", "len", "__name__", "base_init"] {
        names.intern(name)?;
    }
    let module = Module {
        body: Vec::new(alloc),
        names,
    };
    let Ok(scopes) = scope(alloc, &module) else {
        return Err(Fail::from("no scopes"));
    };
    let code = Code {
        ops: Items::new(alloc),
        lines: Items::new(alloc),
        ranges: Items::new(alloc),
        locals: 0,
        params: 0,
    };
    let Ok(body) = validate(alloc, code) else {
        return Err(Fail::from("no code"));
    };
    Ok(Program::new(
        body,
        module.names,
        scopes,
        Items::new(alloc),
        Items::new(alloc),
        Items::new(alloc),
        Items::new(alloc),
    ))
}

// The rule of the only reading of an instruction.
fn rule_of(alloc: Global, program: &Program, op: &Op) -> Result<Option<Transfer>, AllocError> {
    let found = readings(alloc, program, Thread::OfModule, 2, op)?;
    match found.as_slice() {
        [reading] => Ok(Some(reading.transfer)),
        _ => Ok(None),
    }
}

#[test]
fn names_stand_for_builtins(rt: HostRuntime) -> Result<(), Fail> {
    let alloc = rt.alloc();
    let program = without_code(alloc)?;
    let nope = NameId::new(0);
    let base_init = NameId::new(4);
    let cases = [
        (Op::LoadName(nope), Some(Transfer::Misses(nope))),
        (
            Op::LoadName(NameId::new(1)),
            Some(Transfer::Makes(Yield::Ext)),
        ),
        (
            Op::LoadName(NameId::new(3)),
            Some(Transfer::Makes(Yield::Str)),
        ),
        (Op::LoadName(base_init), Some(Transfer::Misses(base_init))),
        (
            Op::Const(ConstKind::Float),
            Some(Transfer::Makes(Yield::Float)),
        ),
        (Op::Pop, None),
    ];
    for (op, rule) in cases.iter() {
        assert!(rt; rule_of(alloc, &program, op)? == *rule);
    }
    Ok(())
}

#[test]
fn faults_have_texts(rt: HostRuntime) -> Result<(), Fail> {
    let alloc = rt.alloc();
    let program = without_code(alloc)?;
    let shapes = all_shapes(alloc)?;
    let cases = [
        (Fault::Name(NameId::new(0)), 0, 2, "nope"),
        (Fault::Unary(UnaryOp::Invert), 0, 2, "~ None"),
        (Fault::Binary(BinOp::FloorDiv), 0, 2, "None // int"),
        (Fault::InPlace(BinOp::Pow), 2, 0, "int **= None"),
        (Fault::Compare(CompareOp::NotWithin), 2, 2, "int not in int"),
        (Fault::Binary(BinOp::Add), 2, 99, "int + Any"),
    ];
    for (fault, left, right, text) in cases.iter() {
        let read = [ShapeId::new(*left), ShapeId::new(*right)];
        let told = fault_text(alloc, &program, &shapes, *fault, &read)?;
        assert_eq!(rt; told.text.bytes(), text.as_bytes());
    }
    Ok(())
}

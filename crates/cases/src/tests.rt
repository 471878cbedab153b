//! What code the texts of modules become.
mod rows;

use block_compile::{ClassRow, Program, blocks, compile};
use place_ids::{ClassId, FunId, Id, NameId};
use py_parse::parse;
use py_scope::scope;
use py_tokens::tokens;
use py_tree::Module;
use stack_code::ValidCode;
use std::alloc::{AllocError, Global};
use std::test::Fail;

// A module's text and the text of its code. The code of the module's body comes first, then that of each function behind a bar.
#[derive(Clone, Copy)]
struct Row {
    source: &'static str,
    code: &'static str,
}

// The tree of a text.
fn tree_of(alloc: Global, source: &str) -> Result<Module, Fail> {
    if source.len() > 262144 {
        return Err(Fail::from("too long"));
    }
    let tokens = tokens(alloc, source)?;
    Ok(parse(alloc, &tokens)?)
}

// The program of a tree.
fn compiled(alloc: Global, module: Module) -> Result<Program, Fail> {
    let scopes = scope(alloc, &module)?;
    Ok(compile(alloc, module, scopes)?)
}

// The program of a text.
fn program_of(alloc: Global, source: &str) -> Result<Program, Fail> {
    let module = tree_of(alloc, source)?;
    compiled(alloc, module)
}

// Each instruction behind the line that it has, where that isn't the one of the instruction before, and the ranges.
fn put_code(out: &mut String, code: &ValidCode) -> Result<(), AllocError> {
    let code = code.code();
    let mut last = 0;
    for (op, line) in code.ops.as_slice().iter().zip(code.lines.as_slice()) {
        let line = line.number();
        if line != last {
            write!(out, "{line}: ")?;
            last = line;
        }
        write!(out, "{op:?}; ")?;
    }
    for range in code.ranges.as_slice() {
        write!(
            out,
            "[{} {} {} {}] ",
            range.first, range.past, range.goal, range.depth
        )?;
    }
    Ok(())
}

fn text_of(alloc: Global, program: &Program) -> Result<String, AllocError> {
    let mut out = String::new(alloc);
    put_code(&mut out, program.module_code())?;
    for number in 0..program.fun_count() {
        if let Some(code) = program.fun_code(FunId::new(number)) {
            out.push_str("| ")?;
            put_code(&mut out, code)?;
        }
    }
    Ok(out)
}

// The first row that becomes other code than it should, with the code that it becomes.
fn first_other(alloc: Global, rows: &[Row]) -> Result<Option<(usize, String)>, Fail> {
    for (place, row) in rows.iter().enumerate() {
        let program = program_of(alloc, row.source)?;
        let text = text_of(alloc, &program)?;
        if text.as_str().trim_end() != row.code {
            return Ok(Some((place, text)));
        }
    }
    Ok(None)
}

// The functions with their classes and the numbers of their parameters.
fn put_funs(out: &mut String, program: &Program) -> Result<(), AllocError> {
    for number in 0..program.fun_count() {
        if let Some(row) = program.fun_row(FunId::new(number)) {
            let params = row.params.len();
            write!(out, "{:?} {params} {:?}; ", row.name, row.class)?;
        }
    }
    Ok(())
}

fn class_at(program: &Program, place: usize) -> Option<&ClassRow> {
    let number = u32::try_from(place).ok()?;
    program.class_row(ClassId::new(number))
}

// The classes with their bases and methods.
fn put_classes(out: &mut String, program: &Program) -> Result<(), AllocError> {
    for (place, name) in program.class_names().iter().enumerate() {
        write!(out, "{name:?}")?;
        if let Some(row) = class_at(program, place) {
            write!(out, " {:?}", row.base)?;
            for method in row.methods.as_slice() {
                write!(out, " {method:?}")?;
            }
        }
        write!(out, "; ")?;
    }
    Ok(())
}

fn put_tables(out: &mut String, program: &Program) -> Result<(), AllocError> {
    put_funs(out, program)?;
    put_classes(out, program)?;
    put_found(out, program)
}

// What the tables of a text's program tell, and where its names are found.
fn tables_of(alloc: Global, source: &str) -> Result<String, Fail> {
    let program = program_of(alloc, source)?;
    let mut out = String::new(alloc);
    put_tables(&mut out, &program)?;
    Ok(out)
}

// Where the names `m` and AssertionError are found, and which local of the first function the name of number 1 is.
fn put_found(out: &mut String, program: &Program) -> Result<(), AllocError> {
    let method = program.names().find("m");
    let error = program.names().find("AssertionError");
    let local = program.scopes().local(FunId::new(0), NameId::new(1));
    write!(out, "{method:?} {error:?} {local:?}")
}

fn put_runs(alloc: Global, out: &mut String, program: &Program) -> Result<(), AllocError> {
    let runs = blocks(alloc, program.module_code())?;
    for (first, past) in runs.ranges() {
        write!(out, "({first}, {past}) ")?;
    }
    Ok(())
}

// The blocks of the code of a text's body.
fn runs_of(alloc: Global, source: &str) -> Result<String, Fail> {
    let program = program_of(alloc, source)?;
    let mut out = String::new(alloc);
    put_runs(alloc, &mut out, &program)?;
    Ok(out)
}

#[test]
fn modules_become_their_code(rt: HostRuntime) -> Result<(), Fail> {
    assert_eq!(rt; first_other(rt.alloc(), &rows::EXPRESSIONS)?, None);
    assert_eq!(rt; first_other(rt.alloc(), &rows::STORES)?, None);
    assert_eq!(rt; first_other(rt.alloc(), &rows::STATEMENTS)?, None);
    assert_eq!(rt; first_other(rt.alloc(), &rows::DEFINITIONS)?, None);
    Ok(())
}

#[test]
fn a_program_tells_its_functions_and_classes(rt: HostRuntime) -> Result<(), Fail> {
    assert_eq!(rt;
        tables_of(rt.alloc(), rows::TABLES)?.as_str(),
        "NameId(0) 1 None; NameId(3) 2 Some(ClassId(0)); NameId(2) None FunId(1); Some(NameId(3)) Some(NameId(6)) Some(0)"
    );
    Ok(())
}

#[test]
fn code_is_cut_into_blocks(rt: HostRuntime) -> Result<(), Fail> {
    assert_eq!(rt; runs_of(rt.alloc(), "x = 1\ny = x\n")?.as_str(), "(0, 5) ");
    assert_eq!(rt;
        runs_of(rt.alloc(), "while x:\n    y\n")?.as_str(),
        "(0, 2) (2, 5) (5, 6) "
    );
    Ok(())
}

//! What is told of the functions and the classes of a module.
ghost use Rattle.std.specs.Prelude.{◌≡◌, ◌++◌, ◌∷◌, [], ℕ, List, Some, length, map, drop, slice_get, IfOk, OnOk};
ghost use Rattle.py_tree.specs.View.{fun_view, class_view, member_view, members_view, stmt_view, stmts_view, param_view};
ghost use Rattle.scope_rules.specs.Tables.{locals_of, locals, method_locals, members_of};
ghost use Rattle.tree_code.specs.Programs.{fun_row, class_row, methods, id_of};
ghost use Rattle.block_compile.specs.Tabled.{with_fun, with_funs, with_class, with_stmts, no_tables, NextAre};

use crate::functions::fun_code;
use place_ids::{ClassId, FunId, Id, NameId};
use program_tables::{ClassRow, FunRow};
use py_scope::Scopes;
use py_tree::{ClassDef, FunDef, Literal, Member, Param, Stmt, StmtKind};
use sqlite_items::Items;
use stack_code::ValidCode;
use std::alloc::{AllocError, Global};
use std::marker::Model;

/// The codes and the rows of the functions so far, and the rows and the names of the classes.
#[derive(Drop)]
pub struct Tables {
    pub codes: Items<ValidCode>,
    pub funs: Items<FunRow>,
    pub classes: Items<ClassRow>,
    pub class_names: Items<NameId>,
}

impl Model for Tables {
    ghost use Rattle.std.specs.Prelude.{◌<◌, ◌^◌, length};
    ghost use Rattle.block_compile.specs.Tabled.{Tabled};

    ghost Value = { Tabled };

    ghost view = { λ t. record { codes = t.codes; funs = t.funs; classes = t.classes; class_names = t.class_names } };

    ghost invariant = { λ t. length t.codes < 2 ^ 32 };
}

/// The tables of a module's statements.
pub fn tables_of(
    alloc: Global,
    scopes: &Scopes,
    error: NameId,
    body: &[Stmt],
) -> Result<Tables, AllocError>
    requires { scopes.now.locals ≡ locals (stmts_view body.now) }
    ensures { IfOk result (λ tables. tables ≡ with_stmts error (stmts_view body.now) no_tables) }
{
    let mut tables = Tables {
        codes: Items::new(alloc),
        funs: Items::new(alloc),
        classes: Items::new(alloc),
        class_names: Items::new(alloc),
    };
    for stmt in body {
        match &stmt.kind {
            StmtKind::Def(fun) => add_fun(&mut tables, alloc, scopes, error, fun, None)?,
            StmtKind::Class(class) => add_class(&mut tables, alloc, scopes, error, class)?,
            _ => {}
        }
    }
    Ok(tables)
}

// Adds a function, which gets the next number.
fn add_fun(
    tables: &mut Tables,
    alloc: Global,
    scopes: &Scopes,
    error: NameId,
    fun: &FunDef,
    class: Option<ClassId>,
) -> Result<(), AllocError>
    requires { slice_get scopes.now.locals (length tables.old.codes) ≡ Some (locals_of (fun_view fun.now)) }
    ensures { OnOk result (tables.new ≡ with_fun error (record { fun = fun_view fun.now; class = class }) tables.old) }
{
    let number = tables.codes.len();
    if number >= u32::MAX as usize {
        return Err(AllocError);
    }
    let code = fun_code(alloc, scopes, error, fun, FunId::new(number as u32))?;
    let row = row_of_fun(alloc, fun, class)?;
    tables.codes.push(code)?;
    tables.funs.push(row)
}

fn row_of_fun(alloc: Global, fun: &FunDef, class: Option<ClassId>) -> Result<FunRow, AllocError>
    ensures { IfOk result (λ row. row ≡ fun_row (record { fun = fun_view fun.now; class = class })) }
{
    let params = param_names(alloc, fun.params.as_slice())?;
    let defaults = param_defaults(alloc, fun.params.as_slice())?;
    Ok(FunRow {
        name: fun.name,
        params,
        defaults,
        class,
    })
}

#[tactic(auto, using(std::proofs::Common::append_assoc))]
fn param_names(alloc: Global, params: &[Param]) -> Result<Items<NameId>, AllocError>
    ensures { IfOk result (λ names. names ≡ map (λ p. p.name) (map param_view params.now)) }
{
    let mut names = Items::new(alloc);
    for param in params {
        names.push(param.name)?;
    }
    Ok(names)
}

#[tactic(auto, using(std::proofs::Common::append_assoc))]
fn param_defaults(alloc: Global, params: &[Param]) -> Result<Items<Option<Literal>>, AllocError>
    ensures { IfOk result (λ defaults. defaults ≡ map (λ p. p.default) (map param_view params.now)) }
{
    let mut defaults = Items::new(alloc);
    for param in params {
        defaults.push(param.default)?;
    }
    Ok(defaults)
}

// Adds a class and its methods.
fn add_class(
    tables: &mut Tables,
    alloc: Global,
    scopes: &Scopes,
    error: NameId,
    class: &ClassDef,
) -> Result<(), AllocError>
    requires { NextAre scopes.now.locals (length tables.old.codes) (method_locals (members_of (class_view class.now))) }
    ensures { OnOk result (tables.new ≡ with_class error (class_view class.now) tables.old) }
{
    let members = class.members.as_slice();
    add_methods(tables, alloc, scopes, error, class.id, members)?;
    let methods = method_ids(alloc, members)?;
    tables.class_names.push(class.name)?;
    tables.classes.push(ClassRow {
        name: class.name,
        base: class.base,
        methods,
    })
}

fn add_methods(
    tables: &mut Tables,
    alloc: Global,
    scopes: &Scopes,
    error: NameId,
    class: ClassId,
    members: &[Member],
) -> Result<(), AllocError>
    requires { NextAre scopes.now.locals (length tables.old.codes) (method_locals (members_view members.now)) }
    ensures { OnOk result (tables.new ≡ with_funs error (methods class (members_view members.now)) tables.old) }
{
    for member in members {
        if let Member::Method(fun) = member {
            add_fun(tables, alloc, scopes, error, fun, Some(class))?;
        }
    }
    Ok(())
}

// The ids of the methods, whatever the number of their class is.
#[tactic(auto, using(std::proofs::Common::append_assoc))]
fn method_ids(alloc: Global, members: &[Member]) -> Result<Items<FunId>, AllocError>
    ensures { IfOk result (λ ids. (class : ℕ) → ids ≡ map (λ d. id_of d.fun) (methods class (members_view members.now))) }
{
    let mut ids = Items::new(alloc);
    for member in members {
        if let Member::Method(fun) = member {
            ids.push(fun.id)?;
        }
    }
    Ok(ids)
}

//! The tables of a module.
ghost use Rattle.std.specs.Prelude.{◌≡◌, ◌++◌, ◌∷◌, [], None, OnOk, IfOk, slice_get, option_map, nat_eq};
ghost use Rattle.std.specs.Option.{option_and_then, option_copied};
ghost use Rattle.indexmap.specs.IndexMap.{get};
ghost use Rattle.py_scope.specs.KeptClasses.{base_in, scope_of, told_from, HaveBasesBefore, AreFirstPlaces};
ghost use Rattle.py_tree.specs.View.{stmts_view, class_view, members_view, fun_view};
ghost use Rattle.scope_rules.specs.Tables as spec;
ghost use Rattle.type_terms.specs.Exceptions.{exception_names};

use crate::bodies::uses_of_fun;
use crate::builtins::text_of;
use crate::classes::Classes;
use crate::first_values::put_first;
use crate::kept_class::{KeptClass, class_at};
use crate::listing::{class_mentions, fun_mentions};
use crate::methods::Methods;
use crate::name_set::NameSet;
use crate::names_of::bound;
use crate::rows::Rows;
use crate::uses::uses;
use indexmap::IndexMap;
use place_ids::{NameId, Names, Sequence};
use py_tree::{ClassDef, FunDef, Member, Stmt, StmtKind};
use scope_rules::{Mention, MethodRow};
use std::alloc::{AllocError, Global};
use type_terms::exception_number;

#[tactic(auto, using(std::proofs::Common::append_assoc))]
fn uses_of_methods(members: &[Member], out: &mut Sequence<Mention>) -> Result<(), AllocError>
    ensures { OnOk result (out.new ≡ out.old ++ spec.method_uses (members_view members.now)) }
{
    for member in members {
        if let Member::Method(fun) = member {
            uses_of_fun(fun, out)?;
        }
    }
    Ok(())
}

#[tactic(auto, using(std::proofs::Common::append_assoc))]
fn uses_of_definitions(stmts: &[Stmt], out: &mut Sequence<Mention>) -> Result<(), AllocError>
    ensures { OnOk result (out.new ≡ out.old ++ spec.definition_uses (stmts_view stmts.now)) }
{
    for stmt in stmts {
        match &stmt.kind {
            StmtKind::Def(fun) => uses_of_fun(fun, out)?,
            StmtKind::Class(class) => uses_of_methods(&class.members, out)?,
            _ => {}
        }
    }
    Ok(())
}

/// Lists what stands in a module and its functions.
#[tactic(auto, using(std::proofs::Common::append_assoc))]
pub(crate) fn everything(alloc: Global, stmts: &[Stmt]) -> Result<Sequence<Mention>, AllocError>
    ensures { IfOk result (λ out. out ≡ spec.everything (stmts_view stmts.now)) }
{
    let mut out = Sequence::new(alloc);
    uses(stmts, &mut out)?;
    uses_of_definitions(stmts, &mut out)?;
    Ok(out)
}

fn locals_of(alloc: Global, fun: &FunDef) -> Result<NameSet, AllocError>
    ensures { IfOk result (λ names. names ≡ spec.locals_of (fun_view fun.now)) }
{
    let mentions = fun_mentions(alloc, fun)?;
    bound(alloc, mentions.items())
}

#[tactic(auto, using(std::proofs::Common::append_assoc))]
fn method_locals(
    alloc: Global,
    members: &[Member],
    out: &mut Vec<NameSet>,
) -> Result<(), AllocError>
    ensures { OnOk result (out.new.items ≡ out.old.items ++ spec.method_locals (members_view members.now)) }
{
    for member in members {
        if let Member::Method(fun) = member {
            out.push(locals_of(alloc, fun)?)?;
        }
    }
    Ok(())
}

/// Puts the names of each function at the end.
#[tactic(auto, using(std::proofs::Common::append_assoc))]
pub(crate) fn locals(
    alloc: Global,
    stmts: &[Stmt],
    out: &mut Vec<NameSet>,
) -> Result<(), AllocError>
    ensures { OnOk result (out.new.items ≡ out.old.items ++ spec.locals (stmts_view stmts.now)) }
{
    for stmt in stmts {
        match &stmt.kind {
            StmtKind::Def(fun) => out.push(locals_of(alloc, fun)?)?,
            StmtKind::Class(class) => method_locals(alloc, &class.members, out)?,
            _ => {}
        }
    }
    Ok(())
}

fn method_row(fun: &FunDef) -> MethodRow
    ensures { result ≡ spec.method_row (fun_view fun.now) }
{
    MethodRow {
        name: fun.name,
        fun: fun.id,
    }
}

fn methods(alloc: Global, members: &[Member]) -> Result<Methods, AllocError>
    ensures { IfOk result (λ methods. methods ≡ spec.method_rows (members_view members.now)) }
{
    let mut rows = Rows::new(alloc);
    put_methods(members, &mut rows)?;
    Methods::new(alloc, rows)
}

#[tactic(auto, using(std::proofs::Common::append_assoc))]
fn put_methods(members: &[Member], rows: &mut Rows<MethodRow>) -> Result<(), AllocError>
    ensures { OnOk result (rows.new ≡ rows.old ++ spec.method_rows (members_view members.now)) }
{
    for member in members {
        if let Member::Method(fun) = member {
            rows.push(method_row(fun))?;
        }
    }
    Ok(())
}

// The place of a class's base.
fn base_place(places: &IndexMap<NameId, usize>, base: Option<NameId>) -> Option<usize>
    ensures { result ≡ option_and_then (get nat_eq places.now) base }
{
    places.get(&base?).copied()
}

fn native_of(names: &Names, base: Option<NameId>) -> Option<u32>
    ensures { option_and_then (slice_get exception_names) result ≡ spec.native_in names.now None base }
{
    match base {
        Some(name) => exception_number(text_of(names, name)),
        None => None,
    }
}

// The builtin exception class at the end of the chain of a class, whose base is there or is none of the classes.
fn native_in(names: &Names, above: Option<&KeptClass>, base: Option<NameId>) -> Option<u32>
    ensures { option_and_then (slice_get exception_names) result ≡ spec.native_in names.now (option_map (scope_of []) (option_copied above.entry)) base }
{
    match above {
        Some(class) => class.native,
        None => native_of(names, base),
    }
}

fn kept_class(
    alloc: Global,
    names: &Names,
    earlier: &[KeptClass],
    base: Option<usize>,
    class: &ClassDef,
) -> Result<KeptClass, AllocError>
    requires { base_in (told_from [] earlier.now) base ≡ spec.base_class (told_from [] earlier.now) class.now.base }
    ensures name { IfOk result (λ kept. kept.name ≡ class.now.name) }
    ensures base { IfOk result (λ kept. kept.base ≡ base) }
    ensures told { IfOk result (λ kept. scope_of (told_from [] earlier.now) kept ≡ spec.class_scope names.now (told_from [] earlier.now) (class_view class.now)) }
{
    let native = native_in(names, class_at(earlier, base), class.base);
    let mentions = class_mentions(alloc, class)?;
    let bound = bound(alloc, mentions.items())?;
    let methods = methods(alloc, &class.members)?;
    Ok(KeptClass {
        name: class.name,
        id: class.id,
        base,
        native,
        bound,
        methods,
    })
}

// Puts a class at the end, where each name has the place of its first class.
fn put_class(
    alloc: Global,
    names: &Names,
    class: &ClassDef,
    rows: &mut Vec<KeptClass>,
    places: &mut IndexMap<NameId, usize>,
) -> Result<(), AllocError>
    requires before { HaveBasesBefore rows.old.items }
    requires places { AreFirstPlaces (λ name. get nat_eq places.old name) rows.old.items }
    ensures told { OnOk result (told_from [] rows.new.items ≡ told_from [] rows.old.items ++ spec.class_scope names.now (told_from [] rows.old.items) (class_view class.now) ∷ []) }
    ensures before { OnOk result (HaveBasesBefore rows.new.items) }
    ensures places { OnOk result (AreFirstPlaces (λ name. get nat_eq places.new name) rows.new.items) }
{
    let base = base_place(places, class.base);
    let row = kept_class(alloc, names, rows.as_slice(), base, class)?;
    put_first(places, class.name, rows.len())?;
    rows.push(row)?;
    Ok(())
}

/// The classes, in their order.
pub(crate) fn classes(alloc: Global, names: &Names, stmts: &[Stmt]) -> Result<Classes, AllocError>
    ensures { IfOk result (λ classes. classes ≡ spec.classes_from names.now [] (stmts_view stmts.now)) }
{
    let mut rows = Vec::new(alloc);
    let mut places = IndexMap::new(alloc);
    for stmt in stmts {
        if let StmtKind::Class(class) = &stmt.kind {
            put_class(alloc, names, class, &mut rows, &mut places)?;
        }
    }
    Ok(Classes::new(rows))
}

//! The types that a stub writes.
ghost use Rattle.std.specs.Prelude.{◌≡◌, ◌++◌, map, IfOk, OnOk};
ghost use Rattle.std.specs.List.{flat_map};
ghost use Rattle.type_terms.specs.Stubs.{name_view, fun_view, class_view, stub_view};
ghost use Rattle.type_terms.specs.View.{term_view, terms_view};
ghost use Rattle.pyi_write.specs.Imports.{within, all_within, body_terms, class_terms, all_terms};
ghost use Rattle.pyi_write.specs.Orders.{shown};

use crate::orders::shown;
use std::alloc::{AllocError, Global};
use type_terms::{Stub, StubClass, StubFun, StubName, TypeTerm};

/// All types that a stub writes, and those that stand in them.
pub(crate) fn all_terms<'a>(alloc: Global, stub: &'a Stub) -> Result<Vec<&'a TypeTerm>, AllocError>
    ensures { IfOk result (λ terms. map (λ term. term_view term.now) terms.items ≡ all_terms (stub_view stub.now)) }
{
    let mut all = Vec::new(alloc);
    let names = shown(alloc, &[], stub.names.items())?;
    add_body(&mut all, &names, stub.funs.items())?;
    let classes = stub.classes.items();
    for class in classes {
        add_class(alloc, &mut all, class)?;
    }
    Ok(all)
}

fn add_class<'a>(
    alloc: Global,
    all: &mut Vec<&'a TypeTerm>,
    class: &'a StubClass,
) -> Result<(), AllocError>
    ensures { OnOk result (map (λ term. term_view term.now) all.new.items ≡ map (λ term. term_view term.now) all.old.items ++ flat_map within (class_terms (class_view class.now))) }
{
    let names = shown(alloc, class.funs.items(), class.names.items())?;
    add_body(all, &names, class.funs.items())
}

#[tactic(auto, using(crate::proofs::Joined::flat_append))]
fn add_body<'a>(
    all: &mut Vec<&'a TypeTerm>,
    names: &[&'a StubName],
    funs: &'a [StubFun],
) -> Result<(), AllocError>
    ensures { OnOk result (map (λ term. term_view term.now) all.new.items ≡ map (λ term. term_view term.now) all.old.items ++ flat_map within (body_terms (map (λ name. name_view name.now) names.now) (map fun_view funs.now))) }
{
    add_names(all, names)?;
    add_funs(all, funs)
}

fn add_names<'a>(all: &mut Vec<&'a TypeTerm>, names: &[&'a StubName]) -> Result<(), AllocError>
    ensures { OnOk result (map (λ term. term_view term.now) all.new.items ≡ map (λ term. term_view term.now) all.old.items ++ flat_map within (map (λ name. name.term) (map (λ name. name_view name.now) names.now))) }
{
    for name in names {
        add_within(all, &name.term)?;
    }
    Ok(())
}

fn add_funs<'a>(all: &mut Vec<&'a TypeTerm>, funs: &'a [StubFun]) -> Result<(), AllocError>
    ensures { OnOk result (map (λ term. term_view term.now) all.new.items ≡ map (λ term. term_view term.now) all.old.items ++ flat_map within (map (λ fun. fun.answer) (map fun_view funs.now))) }
{
    for fun in funs {
        add_within(all, &fun.result)?;
    }
    Ok(())
}

// Puts a type and all that stand in it to the end.
#[cycle(within)]
fn add_within<'a>(all: &mut Vec<&'a TypeTerm>, term: &'a TypeTerm) -> Result<(), AllocError>
    ensures { OnOk result (map (λ part. term_view part.now) all.new.items ≡ map (λ part. term_view part.now) all.old.items ++ within (term_view term.now)) }
{
    all.push(term)?;
    match term {
        TypeTerm::List(item) => add_within(all, item),
        TypeTerm::Dict(key, value) => {
            add_within(all, key)?;
            add_within(all, value)
        }
        TypeTerm::Tuple(places) => add_all_within(all, places),
        TypeTerm::TupleOf(item) => add_within(all, item),
        TypeTerm::Callable(answer) => add_within(all, answer),
        TypeTerm::Union(members) => add_all_within(all, members),
        _ => Ok(()),
    }
}

#[cycle(within)]
fn add_all_within<'a>(all: &mut Vec<&'a TypeTerm>, terms: &'a [TypeTerm]) -> Result<(), AllocError>
    ensures { OnOk result (map (λ part. term_view part.now) all.new.items ≡ map (λ part. term_view part.now) all.old.items ++ all_within (terms_view terms.now)) }
{
    for term in terms {
        add_within(all, term)?;
    }
    Ok(())
}

//! What a stub imports.
ghost use Rattle.std.specs.Prelude.{◌≡◌, ◌++◌, codes, map, option_map, if◌then◌else◌, IfOk, OnOk};
ghost use Rattle.std.specs.List.{flat_map, filter_map};
ghost use Rattle.type_terms.specs.Stubs.{stub_view};
ghost use Rattle.type_terms.specs.Texts.{is_none, is_optional, joined};
ghost use Rattle.type_terms.specs.View.{term_view, terms_view};
ghost use Rattle.pyi_write.specs.Imports.{module_of, module_named, typing_named};
ghost use Rattle.pyi_write.specs.Layout.{import_line, typing_line, import_lines};
ghost use Rattle.pyi_write.specs.Orders.{in_order};

use crate::orders::in_order;
use crate::written::all_terms;
use place_ids::Text;
use std::alloc::{AllocError, Global};
use type_terms::{Stub, TypeTerm};

/// The lines of the imports.
pub(crate) fn import_lines(alloc: Global, stub: &Stub) -> Result<Text, AllocError>
    ensures { IfOk result (λ lines. lines ≡ import_lines (stub_view stub.now)) }
{
    let terms = all_terms(alloc, stub)?;
    let modules = modules(alloc, &terms)?;
    let names = typing_names(alloc, &terms)?;
    let mut out = Text::new(alloc);
    push_modules(&mut out, &modules)?;
    push_typing(&mut out, &names)?;
    Ok(out)
}

// The modules of the classes that some types name, in order.
fn modules<'a>(alloc: Global, terms: &[&'a TypeTerm]) -> Result<Vec<&'a [u8]>, AllocError>
    ensures { IfOk result (λ names. map (λ name. name.now) names.items ≡ in_order (filter_map module_named (map (λ term. term_view term.now) terms.now))) }
{
    let mut names = Vec::new(alloc);
    for term in terms {
        if let Some(name) = module_named(term) {
            names.push(name)?;
        }
    }
    in_order(alloc, &names)
}

// The names of `typing` that some types are written with, in order.
fn typing_names(alloc: Global, terms: &[&TypeTerm]) -> Result<Vec<&'static [u8]>, AllocError>
    ensures { IfOk result (λ names. map (λ name. name.now) names.items ≡ in_order (filter_map typing_named (map (λ term. term_view term.now) terms.now))) }
{
    let mut names = Vec::new(alloc);
    for term in terms {
        if let Some(name) = typing_named(term) {
            names.push(name)?;
        }
    }
    in_order(alloc, &names)
}

fn module_named(term: &TypeTerm) -> Option<&[u8]>
    ensures { option_map (λ name. name.now) result ≡ module_named (term_view term.now) }
{
    match term {
        TypeTerm::Class(name) => module_of(name.bytes()),
        TypeTerm::ClassOf(name) => module_of(name.bytes()),
        _ => None,
    }
}

// What stands before the last dot of a name.
fn module_of(name: &[u8]) -> Option<&[u8]>
    ensures { option_map (λ front. front.now) result ≡ module_of name.now }
{
    for place in (0..name.len()).rev() {
        if name[place] == b'.' {
            return Some(&name[..place]);
        }
    }
    None
}

fn typing_named(term: &TypeTerm) -> Option<&'static [u8]>
    ensures { option_map (λ name. name.now) result ≡ typing_named (term_view term.now) }
{
    match term {
        TypeTerm::Any => Some(b"Any"),
        TypeTerm::List(_) => Some(b"List"),
        TypeTerm::Dict(_, _) => Some(b"Dict"),
        TypeTerm::Tuple(_) => Some(b"Tuple"),
        TypeTerm::TupleOf(_) => Some(b"Tuple"),
        TypeTerm::ClassOf(_) => Some(b"Type"),
        TypeTerm::Callable(_) => Some(b"Callable"),
        TypeTerm::Union(members) => Some(union_name(members)),
        _ => None,
    }
}

fn union_name(members: &[TypeTerm]) -> &'static [u8]
    ensures { result.now ≡ (if is_optional (terms_view members.now) then codes "Optional" else codes "Union") }
{
    if is_optional(members) {
        b"Optional"
    } else {
        b"Union"
    }
}

// Whether members are one and None.
fn is_optional(members: &[TypeTerm]) -> bool
    ensures { result ≡ is_optional (terms_view members.now) }
{
    members.len() == 2 && is_none(&members[1])
}

fn is_none(term: &TypeTerm) -> bool
    ensures { result ≡ is_none (term_view term.now) }
{
    matches!(term, TypeTerm::NoneTerm)
}

// `import MODULE` for each module.
fn push_modules(out: &mut Text, modules: &[&[u8]]) -> Result<(), AllocError>
    ensures { OnOk result (out.new ≡ out.old ++ flat_map import_line (map (λ name. name.now) modules.now)) }
{
    for name in modules {
        out.push(b"import ")?;
        out.push(name)?;
        out.push(b"\n")?;
    }
    Ok(())
}

fn push_typing(out: &mut Text, names: &[&[u8]]) -> Result<(), AllocError>
    ensures { OnOk result (out.new ≡ out.old ++ typing_line (map (λ name. name.now) names.now)) }
{
    match names {
        [] => Ok(()),
        _ => push_typing_line(out, names),
    }
}

fn push_typing_line(out: &mut Text, names: &[&[u8]]) -> Result<(), AllocError>
    ensures { OnOk result (out.new ≡ out.old ++ (codes "from typing import " ++ (joined (map (λ name. name.now) names.now) ++ codes "\n"))) }
{
    out.push(b"from typing import ")?;
    push_joined_line(out, names)
}

fn push_joined_line(out: &mut Text, names: &[&[u8]]) -> Result<(), AllocError>
    ensures { OnOk result (out.new ≡ out.old ++ (joined (map (λ name. name.now) names.now) ++ codes "\n")) }
{
    push_joined(out, names)?;
    out.push(b"\n")
}

// Names with a comma and a space between them.
fn push_joined(out: &mut Text, names: &[&[u8]]) -> Result<(), AllocError>
    ensures { OnOk result (out.new ≡ out.old ++ joined (map (λ name. name.now) names.now)) }
{
    let mut before: &[u8] = b"";
    for name in names {
        out.push(before)?;
        out.push(name)?;
        before = b", ";
    }
    Ok(())
}

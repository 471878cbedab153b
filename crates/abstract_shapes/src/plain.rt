//! The types of shapes that have no parts to print.
ghost use Rattle.std.specs.Prelude.{◌≡◌, List, ◌∷◌, ◌++◌, option_map, IfOk};
ghost use Rattle.builtin_stubs.specs.Natives.{native_head};
ghost use Rattle.type_terms.specs.Terms.{class_of};
ghost use Rattle.type_terms.specs.View.{term_view};
ghost use Rattle.abstract_shapes.specs.Numbering.{structure};
ghost use Rattle.abstract_shapes.specs.Printed.{a_callable, native_type, by_sort, row_type, plain_type};
ghost use Rattle.std.specs.Prelude.{Some};
ghost use Rattle.abstract_shapes.specs.Scenes.{class_name, name_at};
ghost use Rattle.abstract_shapes.specs.Shapes.{Shape as StructuralShape};

use crate::copied::copy_text;
use crate::{Row, Shape};
use builtin_stubs::{Builtins, NativeId, NativeSort};
use place_ids::{ClassId, Id, NameId, Names, Text};
use std::alloc::{AllocError, Global};
use type_terms::TypeTerm;

/// The type of a shape that has no parts to print, if it is one.
pub(crate) fn plain_type(
    alloc: Global,
    names: &Names,
    classes: &[NameId],
    shape: &Shape,
) -> Result<Option<TypeTerm>, AllocError>
    ensures { IfOk result (λ made. (shapes : List StructuralShape) →
        option_map term_view made ≡ plain_type (class_name names.now classes.now) (structure shapes shape.now)) }
{
    match shape {
        Shape::NoneValue => Ok(Some(TypeTerm::NoneTerm)),
        Shape::TrueValue | Shape::FalseValue => Ok(Some(TypeTerm::Bool)),
        Shape::Int => Ok(Some(TypeTerm::Int)),
        Shape::Float => Ok(Some(TypeTerm::Float)),
        Shape::Str => Ok(Some(TypeTerm::Str)),
        Shape::Bytes => Ok(Some(TypeTerm::Bytes)),
        Shape::List(_) | Shape::Dict(_) | Shape::Tuple(_, _) | Shape::Pair(_) => Ok(None),
        Shape::View(_) | Shape::Module(_) | Shape::Ext | Shape::Any => Ok(Some(TypeTerm::Any)),
        Shape::Fun(_) | Shape::Bound(_, _) | Shape::BoundNative(_, _) => {
            Ok(Some(a_callable(alloc)?))
        }
        Shape::Class(class) => Ok(Some(class_type(alloc, class_name(names, classes, *class))?)),
        Shape::Inst(class) => {
            let name = copy_text(alloc, class_name(names, classes, *class))?;
            Ok(Some(TypeTerm::Class(name)))
        }
        Shape::Native(row) => Ok(Some(row_type(alloc, row)?)),
        Shape::Given(term) => Ok(Some(term.copy(alloc)?)),
    }
}

// The name of a class.
fn class_name<'a>(names: &'a Names, classes: &[NameId], class: ClassId) -> &'a [u8]
    ensures { result.now ≡ class_name names.now classes.now class }
{
    match classes.get(class.number() as usize) {
        Some(id) => name_at(names, *id),
        None => b"",
    }
}

fn name_at(names: &Names, id: NameId) -> &[u8]
    ensures { result.now ≡ name_at names.now (Some id) }
{
    match names.text(id) {
        Some(text) => text.as_bytes(),
        None => b"",
    }
}

fn a_callable(alloc: Global) -> Result<TypeTerm, AllocError>
    ensures { IfOk result (λ made. term_view made ≡ a_callable) }
{
    Ok(TypeTerm::Callable(Box::new(alloc, TypeTerm::Any)?))
}

fn class_type(alloc: Global, name: &[u8]) -> Result<TypeTerm, AllocError>
    ensures { IfOk result (λ made. term_view made ≡ class_of name.now) }
{
    Ok(TypeTerm::ClassOf(copy_text(alloc, name)?))
}

fn row_type(alloc: Global, row: &Row) -> Result<TypeTerm, AllocError>
    ensures { IfOk result (λ made. term_view made ≡ row_type row.now) }
{
    match row {
        Row::Builtin(id) => native_type(alloc, *id),
        Row::StubFun(_, _) | Row::StubMethod(_, _, _) => a_callable(alloc),
        Row::StubClass(stub, class) => stub_class_type(alloc, stub, class),
    }
}

fn stub_class_type(alloc: Global, stub: &Text, class: &Text) -> Result<TypeTerm, AllocError>
    ensures { IfOk result (λ made. term_view made ≡ class_of (stub.now ++ 46 ∷ class.now)) }
{
    let mut name = copy_text(alloc, stub.bytes())?;
    name.push(b".")?;
    name.push(class.bytes())?;
    Ok(TypeTerm::ClassOf(name))
}

fn native_type(alloc: Global, id: NativeId) -> Result<TypeTerm, AllocError>
    ensures { IfOk result (λ made. term_view made ≡ native_type (native_head id)) }
{
    match Builtins.row(id) {
        Some(row) => by_sort(alloc, row.sort, row.name),
        None => a_callable(alloc),
    }
}

fn by_sort(alloc: Global, sort: NativeSort, name: &str) -> Result<TypeTerm, AllocError>
    ensures { IfOk result (λ made. term_view made ≡ by_sort sort name.now) }
{
    match sort {
        NativeSort::Class => class_type(alloc, name.as_bytes()),
        _ => a_callable(alloc),
    }
}

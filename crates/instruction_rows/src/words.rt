//! The words that a report has for shapes.
ghost use Rattle.std.specs.Prelude.{◌≡◌, ◌++◌, List, OnOk};
ghost use Rattle.type_terms.specs.View.{term_view};
ghost use Rattle.abstract_shapes.specs.Numbering.{structure, structures, shape_at};
ghost use Rattle.abstract_shapes.specs.Shapes.{Shape as StructuralShape};
ghost use Rattle.world_rules.specs.Texts.{word, word_at, native_word, head_word, given_word, class_name};
ghost use Rattle.builtin_stubs.specs.Natives.{native_head};
ghost use Rattle.abstract_shapes.specs.Scenes.{shapes_under};

use crate::names::text_of;
use abstract_shapes::{Row, Shape, Shapes};
use builtin_stubs::{Builtins, NativeId, NativeSort};
use place_ids::{ClassId, Id, NameId, ShapeId, Text};
use program_tables::Program;
use std::alloc::AllocError;
use type_terms::TypeTerm;

/// Puts the word of the shape at a place among those that are read to the end of a text.
pub(crate) fn push_word_at(
    text: &mut Text,
    program: &Program,
    shapes: &Shapes,
    read: &[ShapeId],
    place: usize,
) -> Result<(), AllocError>
    ensures { OnOk result (text.new ≡ text.old ++ word_at program.now.program (shapes_under (structures shapes.now) read.now) place) }
{
    match read.get(place) {
        Some(id) => push_word_under(text, program, shapes, *id),
        None => Ok(()),
    }
}

fn push_word_under(
    text: &mut Text,
    program: &Program,
    shapes: &Shapes,
    id: ShapeId,
) -> Result<(), AllocError>
    ensures { OnOk result (text.new ≡ text.old ++ word program.now.program (shape_at (structures shapes.now) id)) }
{
    match shapes.shape(id) {
        Some(shape) => text.push(word(program, shape)),
        None => text.push(b"Any"),
    }
}

fn word<'a>(program: &'a Program, shape: &'a Shape) -> &'a [u8]
    ensures { (shapes : List StructuralShape) → result.now ≡ word program.now.program (structure shapes shape.now) }
{
    match shape {
        Shape::NoneValue => b"None",
        Shape::TrueValue | Shape::FalseValue => b"bool",
        Shape::Int => b"int",
        Shape::Float => b"float",
        Shape::Str => b"str",
        Shape::Bytes => b"bytes",
        Shape::List(_) => b"list",
        Shape::Dict(_) => b"dict",
        Shape::Tuple(..) | Shape::Pair(_) => b"tuple",
        Shape::View(_) => b"view",
        Shape::Fun(_) | Shape::Bound(..) | Shape::BoundNative(..) => b"function",
        Shape::Class(_) => b"type",
        Shape::Inst(class) => class_name(program, *class).as_bytes(),
        Shape::Native(row) => native_word(row),
        Shape::Module(_) => b"module",
        Shape::Given(term) => given_word(term),
        Shape::Ext | Shape::Any => b"Any",
    }
}

fn class_name(program: &Program, class: ClassId) -> &str
    ensures { result.now ≡ class_name program.now.program class }
{
    match program.class_row(class) {
        Some(row) => text_of(program.names(), row.name),
        None => text_of(program.names(), NameId::new(0)),
    }
}

fn native_word(row: &Row) -> &'static [u8]
    ensures { result.now ≡ native_word row.now }
{
    match row {
        Row::Builtin(number) => builtin_word(*number),
        Row::StubClass(..) => b"type",
        Row::StubFun(..) | Row::StubMethod(..) => b"function",
    }
}

fn builtin_word(number: NativeId) -> &'static [u8]
    ensures { result.now ≡ head_word (native_head number) }
{
    match Builtins.row(number) {
        Some(row) => match row.sort {
            NativeSort::Class => b"type",
            NativeSort::Function | NativeSort::Method | NativeSort::Value => b"function",
        },
        None => b"function",
    }
}

// An instance of a class has the class's printed name.
fn given_word(term: &TypeTerm) -> &[u8]
    ensures { result.now ≡ given_word (term_view term.now) }
{
    match term {
        TypeTerm::NoneTerm => b"None",
        TypeTerm::Bool => b"bool",
        TypeTerm::Int => b"int",
        TypeTerm::Float => b"float",
        TypeTerm::Str => b"str",
        TypeTerm::Bytes => b"bytes",
        TypeTerm::List(_) => b"list",
        TypeTerm::Dict(..) => b"dict",
        TypeTerm::Tuple(_) | TypeTerm::TupleOf(_) => b"tuple",
        TypeTerm::Class(name) => name.bytes(),
        TypeTerm::ClassOf(_) => b"type",
        TypeTerm::Callable(_) => b"function",
        TypeTerm::Any | TypeTerm::Union(_) => b"Any",
    }
}

//! How shapes are hashed.
ghost use Rattle.std.specs.Prelude.{◌≡◌, fold};
ghost use Rattle.abstract_shapes.specs.Marks.{marks, numbered, row_marks};
ghost use Rattle.abstract_shapes.specs.Sketches.{sketch};

use crate::hashed_term::hash_term;
use crate::{Row, Shape};
use place_ids::Id;
use std::hash::{Hash, Hasher};

impl Hash for Shape {
    ghost use Rattle.abstract_shapes.specs.Marks.{marks};
    ghost use Rattle.abstract_shapes.specs.Sketches.{sketch};
    ghost use Rattle.abstract_shapes.specs.SameLaws.{same_marks};

    ghost hash_input = { λ shape. marks (sketch shape) };

    ghost respects_eq = { same_marks };

    fn hash<H: Hasher>(&self, state: &mut H) {
        hash_shape(self, state);
    }
}

fn hash_shape<H: Hasher>(shape: &Shape, state: &mut H)
    ensures { state.new ≡ fold H.write state.old (marks (sketch shape.now)) }
{
    match shape {
        Shape::NoneValue => state.write_u8(0),
        Shape::TrueValue => state.write_u8(1),
        Shape::FalseValue => state.write_u8(2),
        Shape::Int => state.write_u8(3),
        Shape::Float => state.write_u8(4),
        Shape::Str => state.write_u8(5),
        Shape::Bytes => state.write_u8(6),
        Shape::List(site) => hash_number(7, site.number(), state),
        Shape::Dict(site) => hash_number(8, site.number(), state),
        Shape::Tuple(site, _) => hash_number(9, site.number(), state),
        Shape::Pair(site) => hash_number(10, site.number(), state),
        Shape::View(site) => hash_number(11, site.number(), state),
        Shape::Fun(fun) => hash_number(12, fun.number(), state),
        Shape::Bound(class, fun) => {
            hash_number(13, class.number(), state);
            hash_number(13, fun.number(), state);
        }
        Shape::BoundNative(receiver, row) => {
            hash_number(7, receiver.number(), state);
            hash_row(row, state);
        }
        Shape::Class(class) => hash_number(14, class.number(), state),
        Shape::Inst(class) => hash_number(15, class.number(), state),
        Shape::Native(row) => {
            state.write_u8(16);
            hash_row(row, state);
        }
        Shape::Module(name) => {
            state.write_u8(17);
            state.write(name.bytes());
        }
        Shape::Given(term) => {
            state.write_u8(18);
            hash_term(term, state);
        }
        Shape::Ext => state.write_u8(19),
        Shape::Any => state.write_u8(20),
    }
}

// A mark and a number.
fn hash_number<H: Hasher>(mark: u8, number: u32, state: &mut H)
    ensures { state.new ≡ fold H.write state.old (numbered mark number) }
{
    state.write_u8(mark);
    state.write_u32(number);
}

fn hash_row<H: Hasher>(row: &Row, state: &mut H)
    ensures { state.new ≡ fold H.write state.old (row_marks row.now) }
{
    match row {
        Row::Builtin(native) => hash_number(0, native.number(), state),
        Row::StubFun(module, fun) => {
            state.write_u8(1);
            state.write(module.bytes());
            state.write(fun.bytes());
        }
        Row::StubClass(module, class) => {
            state.write_u8(2);
            state.write(module.bytes());
            state.write(class.bytes());
        }
        Row::StubMethod(module, class, fun) => {
            state.write_u8(3);
            state.write(module.bytes());
            state.write(class.bytes());
            state.write(fun.bytes());
        }
    }
}

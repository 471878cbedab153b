//! The texts of faults.
ghost use Rattle.std.specs.Prelude.{◌≡◌, ◌++◌, ◌∷◌, codes, OnOk, IfOk};
ghost use Rattle.abstract_shapes.specs.Numbering.{structures};
ghost use Rattle.abstract_shapes.specs.Scenes.{shapes_under};
ghost use Rattle.world_rules.specs.Texts.{fault_text, text_of_fault, kind_of_fault, before, between};

use crate::names::text_of;
use crate::signs::{compare_sign, sign, unary_sign};
use crate::words::push_word_at;
use abstract_shapes::Shapes;
use place_ids::{ShapeId, Text};
use program_tables::Program;
use std::alloc::{AllocError, Global};
use world_rules::{Fault, FaultText, FindingKind};

/// A fault as a report tells it, for the shapes under these ids.
pub fn fault_text(
    alloc: Global,
    program: &Program,
    shapes: &Shapes,
    fault: Fault,
    read: &[ShapeId],
) -> Result<FaultText, AllocError>
    ensures { IfOk result (λ told. told ≡ fault_text program.now.program fault (shapes_under (structures shapes.now) read.now)) }
{
    let kind = kind_of_fault(&fault);
    let text = text_of_fault(alloc, program, shapes, fault, read)?;
    Ok(FaultText { kind, text })
}

fn text_of_fault(
    alloc: Global,
    program: &Program,
    shapes: &Shapes,
    fault: Fault,
    read: &[ShapeId],
) -> Result<Text, AllocError>
    ensures { IfOk result (λ text. text ≡ text_of_fault program.now.program fault (shapes_under (structures shapes.now) read.now)) }
{
    let mut out = Text::new(alloc);
    push_fault(&mut out, program, shapes, fault, read)?;
    Ok(out)
}

fn kind_of_fault(fault: &Fault) -> FindingKind
    ensures { result ≡ kind_of_fault fault.now }
{
    match fault {
        Fault::Name(_) => FindingKind::NameError,
        Fault::Unary(_) | Fault::Binary(_) | Fault::InPlace(_) | Fault::Compare(_) => {
            FindingKind::UnsupportedOperands
        }
    }
}

fn push_fault(
    text: &mut Text,
    program: &Program,
    shapes: &Shapes,
    fault: Fault,
    read: &[ShapeId],
) -> Result<(), AllocError>
    ensures { OnOk result (text.new ≡ text.old ++ text_of_fault program.now.program fault (shapes_under (structures shapes.now) read.now)) }
{
    match fault {
        Fault::Name(name) => text.push(text_of(program.names(), name).as_bytes()),
        Fault::Unary(op) => push_before(text, program, shapes, unary_sign(op), read),
        Fault::Binary(op) => push_between(text, program, shapes, sign(op), b"", read),
        Fault::InPlace(op) => push_between(text, program, shapes, sign(op), b"=", read),
        Fault::Compare(op) => push_between(text, program, shapes, compare_sign(op), b"", read),
    }
}

fn push_before(
    text: &mut Text,
    program: &Program,
    shapes: &Shapes,
    sign: &[u8],
    read: &[ShapeId],
) -> Result<(), AllocError>
    ensures { OnOk result (text.new ≡ text.old ++ before program.now.program sign.now (shapes_under (structures shapes.now) read.now)) }
{
    text.push(sign)?;
    text.push(b" ")?;
    push_word_at(text, program, shapes, read, 0)
}

// The sign of an augmented assignment goes on with `=`.
fn push_between(
    text: &mut Text,
    program: &Program,
    shapes: &Shapes,
    sign: &[u8],
    more: &[u8],
    read: &[ShapeId],
) -> Result<(), AllocError>
    ensures { OnOk result (text.new ≡ text.old ++ between program.now.program (sign.now ++ more.now) (shapes_under (structures shapes.now) read.now)) }
{
    push_word_at(text, program, shapes, read, 0)?;
    text.push(b" ")?;
    text.push(sign)?;
    text.push(more)?;
    text.push(b" ")?;
    push_word_at(text, program, shapes, read, 1)
}

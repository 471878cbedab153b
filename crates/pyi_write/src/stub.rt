//! The text of a stub.
ghost use Rattle.std.specs.Prelude.{◌≡◌, ◌++◌, [], map, IfOk, OnOk};
ghost use Rattle.std.specs.List.{flat_map};
ghost use Rattle.type_terms.specs.Stubs.{name_view, fun_view, class_view, stub_view};
ghost use Rattle.pyi_write.specs.Behind.{with_part, with_parts};
ghost use Rattle.pyi_write.specs.Layout.{name_line, fun_line, class_text, stub_text};
ghost use Rattle.pyi_write.specs.Orders.{shown};

use crate::bodies::{class_text, push_funs, push_names};
use crate::imports::import_lines;
use crate::orders::shown;
use place_ids::Text;
use std::alloc::{AllocError, Global};
use type_terms::{Stub, StubClass, StubFun, StubName};

/// The text of a stub. Names are sorted; functions, methods and classes keep their order.
pub fn stub_text(alloc: Global, stub: &Stub) -> Result<Text, AllocError>
    ensures { IfOk result (λ text. text ≡ stub_text (stub_view stub.now)) }
{
    let mut out = Text::new(alloc);
    push_part(&mut out, &import_lines(alloc, stub)?)?;
    push_part(&mut out, &name_lines(alloc, stub.names.items())?)?;
    push_part(&mut out, &fun_lines(alloc, stub.funs.items())?)?;
    push_classes(alloc, &mut out, stub.classes.items())?;
    Ok(out)
}

fn name_lines(alloc: Global, names: &[StubName]) -> Result<Text, AllocError>
    ensures { IfOk result (λ text. text ≡ flat_map (name_line []) (shown [] (map name_view names.now))) }
{
    let ordered = shown(alloc, &[], names)?;
    let mut out = Text::new(alloc);
    push_names(alloc, &mut out, b"", &ordered)?;
    Ok(out)
}

fn fun_lines(alloc: Global, funs: &[StubFun]) -> Result<Text, AllocError>
    ensures { IfOk result (λ text. text ≡ flat_map (fun_line []) (map fun_view funs.now)) }
{
    let mut out = Text::new(alloc);
    push_funs(alloc, &mut out, b"", funs)?;
    Ok(out)
}

// Puts a part to the end, with a blank line between it and what is written.
fn push_part(out: &mut Text, part: &Text) -> Result<(), AllocError>
    ensures { OnOk result (out.new ≡ with_part out.old part.now) }
{
    if !out.bytes().is_empty() && !part.bytes().is_empty() {
        out.push(b"\n")?;
    }
    out.push(part.bytes())
}

fn push_classes(alloc: Global, out: &mut Text, classes: &[StubClass]) -> Result<(), AllocError>
    ensures { OnOk result (out.new ≡ with_parts out.old (map class_text (map class_view classes.now))) }
{
    for class in classes {
        push_part(out, &class_text(alloc, class)?)?;
    }
    Ok(())
}

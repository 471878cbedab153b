//! The lines of names, functions and classes.
ghost use Rattle.std.specs.Prelude.{◌≡◌, ◌++◌, codes, map, IfOk, OnOk};
ghost use Rattle.std.specs.List.{flat_map};
ghost use Rattle.type_terms.specs.Stubs.{name_view, param_view, fun_view, class_view};
ghost use Rattle.type_terms.specs.Texts.{joined};
ghost use Rattle.pyi_write.specs.Layout.{name_line, param_text, default_text, fun_line, base_text, class_body, class_text};

use crate::orders::shown;
use place_ids::Text;
use std::alloc::{AllocError, Global};
use type_terms::{StubClass, StubFun, StubName, StubParam, term_text};

/// `NAME: TYPE` for each name.
pub(crate) fn push_names(
    alloc: Global,
    out: &mut Text,
    margin: &[u8],
    names: &[&StubName],
) -> Result<(), AllocError>
    ensures { OnOk result (out.new ≡ out.old ++ flat_map (name_line margin.now) (map (λ name. name_view name.now) names.now)) }
{
    for name in names {
        push_name(alloc, out, margin, name)?;
    }
    Ok(())
}

fn push_name(
    alloc: Global,
    out: &mut Text,
    margin: &[u8],
    name: &StubName,
) -> Result<(), AllocError>
    ensures { OnOk result (out.new ≡ out.old ++ name_line margin.now (name_view name.now)) }
{
    let text = term_text(alloc, &name.term)?;
    out.push(margin)?;
    out.push(name.name.bytes())?;
    out.push(b": ")?;
    out.push(text.bytes())?;
    out.push(b"\n")
}

/// `def NAME(PARAMS) -> TYPE: ...` for each function.
pub(crate) fn push_funs(
    alloc: Global,
    out: &mut Text,
    margin: &[u8],
    funs: &[StubFun],
) -> Result<(), AllocError>
    ensures { OnOk result (out.new ≡ out.old ++ flat_map (fun_line margin.now) (map fun_view funs.now)) }
{
    for fun in funs {
        push_fun(alloc, out, margin, fun)?;
    }
    Ok(())
}

fn push_fun(alloc: Global, out: &mut Text, margin: &[u8], fun: &StubFun) -> Result<(), AllocError>
    ensures { OnOk result (out.new ≡ out.old ++ fun_line margin.now (fun_view fun.now)) }
{
    let text = term_text(alloc, &fun.result)?;
    push_head(out, margin, fun.name.bytes())?;
    push_params(out, fun.params.items())?;
    push_result(out, text.bytes())
}

fn push_head(out: &mut Text, margin: &[u8], name: &[u8]) -> Result<(), AllocError>
    ensures { OnOk result (out.new ≡ out.old ++ (margin.now ++ (codes "def " ++ (name.now ++ codes "(")))) }
{
    out.push(margin)?;
    out.push(b"def ")?;
    out.push(name)?;
    out.push(b"(")
}

fn push_result(out: &mut Text, result_text: &[u8]) -> Result<(), AllocError>
    ensures { OnOk result (out.new ≡ out.old ++ (codes ") -> " ++ (result_text.now ++ codes ": ...\n"))) }
{
    out.push(b") -> ")?;
    out.push(result_text)?;
    out.push(b": ...\n")
}

// Parameters with a comma and a space between them.
fn push_params(out: &mut Text, params: &[StubParam]) -> Result<(), AllocError>
    ensures { OnOk result (out.new ≡ out.old ++ joined (map param_text (map param_view params.now))) }
{
    let mut before: &[u8] = b"";
    for param in params {
        out.push(before)?;
        out.push(param.name.bytes())?;
        push_default(out, param.has_default)?;
        before = b", ";
    }
    Ok(())
}

fn push_default(out: &mut Text, has_default: bool) -> Result<(), AllocError>
    ensures { OnOk result (out.new ≡ out.old ++ default_text has_default) }
{
    match has_default {
        true => out.push(b"=..."),
        false => Ok(()),
    }
}

/// The lines of a class.
pub(crate) fn class_text(alloc: Global, class: &StubClass) -> Result<Text, AllocError>
    ensures { IfOk result (λ text. text ≡ class_text (class_view class.now)) }
{
    let names = shown(alloc, class.funs.items(), class.names.items())?;
    let mut out = Text::new(alloc);
    out.push(b"class ")?;
    out.push(class.name.bytes())?;
    push_base(&mut out, &class.base)?;
    out.push(b":")?;
    push_class_body(alloc, &mut out, &names, class.funs.items())?;
    Ok(out)
}

fn push_base(out: &mut Text, base: &Option<Text>) -> Result<(), AllocError>
    ensures { OnOk result (out.new ≡ out.old ++ base_text base.now) }
{
    match base {
        Some(name) => {
            out.push(b"(")?;
            out.push(name.bytes())?;
            out.push(b")")
        }
        None => Ok(()),
    }
}

// A class without attributes and methods stands in one line.
fn push_class_body(
    alloc: Global,
    out: &mut Text,
    names: &[&StubName],
    funs: &[StubFun],
) -> Result<(), AllocError>
    ensures { OnOk result (out.new ≡ out.old ++ class_body (map (λ name. name_view name.now) names.now) (map fun_view funs.now)) }
{
    if names.is_empty() && funs.is_empty() {
        return out.push(b" ...\n");
    }
    out.push(b"\n")?;
    push_names(alloc, out, b"    ", names)?;
    push_funs(alloc, out, b"    ", funs)
}

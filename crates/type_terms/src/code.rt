//! The shape of a type in bytes, no two types alike.
ghost use Rattle.std.specs.Prelude.{◌≡◌, ◌∷◌, [], ◌++◌, IfOk, OnOk};
ghost use Rattle.type_terms.specs.Codes.{code, codes_of, name_code};
ghost use Rattle.type_terms.specs.View.{term_view, terms_view};

use crate::TypeTerm;
use place_ids::Text;
use std::alloc::{AllocError, Global};

/// The code of a type, by which maps may keep it.
pub fn term_code(alloc: Global, term: &TypeTerm) -> Result<Text, AllocError>
    ensures { IfOk result (λ written. written ≡ code (term_view term.now)) }
{
    let mut out = Text::new(alloc);
    write_code(&mut out, term)?;
    Ok(out)
}

#[cycle(code)]
fn write_code(out: &mut Text, term: &TypeTerm) -> Result<(), AllocError>
    ensures { OnOk result (out.new ≡ out.old ++ code (term_view term.now)) }
{
    match term {
        TypeTerm::Any => out.push(&[0]),
        TypeTerm::NoneTerm => out.push(&[1]),
        TypeTerm::Bool => out.push(&[2]),
        TypeTerm::Int => out.push(&[3]),
        TypeTerm::Float => out.push(&[4]),
        TypeTerm::Str => out.push(&[5]),
        TypeTerm::Bytes => out.push(&[6]),
        TypeTerm::List(item) => write_marked(out, 7, item),
        TypeTerm::Dict(key, value) => {
            write_marked(out, 8, key)?;
            write_code(out, value)
        }
        TypeTerm::Tuple(places) => write_codes(out, 9, places),
        TypeTerm::TupleOf(item) => write_marked(out, 10, item),
        TypeTerm::Class(name) => write_name(out, 11, name.bytes()),
        TypeTerm::ClassOf(name) => write_name(out, 12, name.bytes()),
        TypeTerm::Callable(answer) => write_marked(out, 13, answer),
        TypeTerm::Union(members) => write_codes(out, 14, members),
    }
}

// A mark, and the code of a type behind it.
#[cycle(code)]
fn write_marked(out: &mut Text, mark: u8, term: &TypeTerm) -> Result<(), AllocError>
    ensures { OnOk result (out.new ≡ out.old ++ (mark ∷ code (term_view term.now))) }
{
    out.push(&[mark])?;
    write_code(out, term)
}

// A mark, and the codes of types behind it, each with a 1 before it, and a 0 at the end.
#[cycle(code)]
fn write_codes(out: &mut Text, mark: u8, terms: &[TypeTerm]) -> Result<(), AllocError>
    ensures { OnOk result (out.new ≡ out.old ++ (mark ∷ codes_of (terms_view terms.now))) }
{
    out.push(&[mark])?;
    for term in terms {
        write_marked(out, 1, term)?;
    }
    out.push(&[0])
}

// A mark, and the bytes of a name behind it, each with a 1 before it, and a 0 at the end.
fn write_name(out: &mut Text, mark: u8, name: &[u8]) -> Result<(), AllocError>
    ensures { OnOk result (out.new ≡ out.old ++ (mark ∷ name_code name.now)) }
{
    out.push(&[mark])?;
    for byte in name {
        out.push(&[1, *byte])?;
    }
    out.push(&[0])
}

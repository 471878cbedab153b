//! How a type is written.
ghost use Rattle.std.specs.Prelude.{◌≡◌, ◌++◌, IfOk, OnOk, codes};
ghost use Rattle.type_terms.specs.Texts.{text, texts, joined, tuple_text, class_of_text, is_none, is_optional, union_text};
ghost use Rattle.type_terms.specs.View.{term_view, terms_view};

use crate::TypeTerm;
use place_ids::Text;
use std::alloc::{AllocError, Global};

/// How a stub writes a type.
pub fn term_text(alloc: Global, term: &TypeTerm) -> Result<Text, AllocError>
    ensures { IfOk result (λ written. written ≡ text (term_view term.now)) }
{
    let mut out = Text::new(alloc);
    write_term(&mut out, term)?;
    Ok(out)
}

#[cycle(text)]
fn write_term(out: &mut Text, term: &TypeTerm) -> Result<(), AllocError>
    ensures { OnOk result (out.new ≡ out.old ++ text (term_view term.now)) }
{
    match term {
        TypeTerm::Any => out.push(b"Any"),
        TypeTerm::NoneTerm => out.push(b"None"),
        TypeTerm::Bool => out.push(b"bool"),
        TypeTerm::Int => out.push(b"int"),
        TypeTerm::Float => out.push(b"float"),
        TypeTerm::Str => out.push(b"str"),
        TypeTerm::Bytes => out.push(b"bytes"),
        TypeTerm::List(item) => write_between(out, b"List[", item, b"]"),
        TypeTerm::Dict(key, value) => {
            write_between(out, b"Dict[", key, b", ")?;
            write_between(out, b"", value, b"]")
        }
        TypeTerm::Tuple(places) => write_tuple(out, places),
        TypeTerm::TupleOf(item) => write_between(out, b"Tuple[", item, b", ...]"),
        TypeTerm::Class(name) => out.push(name.bytes()),
        TypeTerm::ClassOf(name) => write_class_of(out, name),
        TypeTerm::Callable(answer) => write_between(out, b"Callable[..., ", answer, b"]"),
        TypeTerm::Union(members) => write_union(out, members),
    }
}

#[cycle(text)]
fn write_between(
    out: &mut Text,
    before: &[u8],
    term: &TypeTerm,
    behind: &[u8],
) -> Result<(), AllocError>
    ensures { OnOk result (out.new ≡ out.old ++ (before.now ++ text (term_view term.now) ++ behind.now)) }
{
    out.push(before)?;
    write_term(out, term)?;
    out.push(behind)
}

#[cycle(text)]
fn write_tuple(out: &mut Text, places: &[TypeTerm]) -> Result<(), AllocError>
    ensures { OnOk result (out.new ≡ out.old ++ tuple_text (texts (terms_view places.now))) }
{
    match places {
        [] => out.push(b"Tuple[()]"),
        _ => write_joined(out, b"Tuple[", places),
    }
}

fn write_class_of(out: &mut Text, name: &Text) -> Result<(), AllocError>
    ensures { OnOk result (out.new ≡ out.old ++ class_of_text name.now) }
{
    out.push(b"Type[")?;
    out.push(name.bytes())?;
    out.push(b"]")
}

fn is_none(term: &TypeTerm) -> bool
    ensures { result ≡ is_none (term_view term.now) }
{
    matches!(term, TypeTerm::NoneTerm)
}

// Whether members are one and None.
fn is_optional(members: &[TypeTerm]) -> bool
    ensures { result ≡ is_optional (terms_view members.now) }
{
    members.len() == 2 && is_none(&members[1])
}

#[cycle(text)]
fn write_union(out: &mut Text, members: &[TypeTerm]) -> Result<(), AllocError>
    ensures { OnOk result (out.new ≡ out.old ++ union_text (is_optional (terms_view members.now)) (texts (terms_view members.now))) }
{
    match members {
        [member, ..] if is_optional(members) => write_between(out, b"Optional[", member, b"]"),
        _ => write_joined(out, b"Union[", members),
    }
}

// Terms with a comma and a space between them, and the brackets round them.
#[cycle(text)]
fn write_joined(out: &mut Text, opening: &[u8], terms: &[TypeTerm]) -> Result<(), AllocError>
    ensures { OnOk result (out.new ≡ out.old ++ (opening.now ++ joined (texts (terms_view terms.now)) ++ codes "]")) }
{
    out.push(opening)?;
    let mut before: &[u8] = b"";
    for term in terms {
        write_between(out, before, term, b"")?;
        before = b", ";
    }
    out.push(b"]")
}

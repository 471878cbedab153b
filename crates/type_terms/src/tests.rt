//! What the calls answer where memory is ample.
ghost use Rattle.std.specs.Prelude.{IfOk};
ghost use Rattle.type_terms.specs.ProperStubs.{IsProperStub};
ghost use Rattle.type_terms.specs.Stubs.{stub_view};

use super::*;
use place_ids::{Sequence, Text};
use std::alloc::{AllocError, Global};
use std::test::Fail;

fn named(alloc: Global, name: &str) -> Result<Text, AllocError> {
    let mut text = Text::new(alloc);
    text.push(name.as_bytes())?;
    Ok(text)
}

fn class(alloc: Global, name: &str) -> Result<TypeTerm, AllocError> {
    Ok(TypeTerm::Class(named(alloc, name)?))
}

fn class_of(alloc: Global, name: &str) -> Result<TypeTerm, AllocError> {
    Ok(TypeTerm::ClassOf(named(alloc, name)?))
}

fn list(alloc: Global, item: TypeTerm) -> Result<TypeTerm, AllocError> {
    Ok(TypeTerm::List(Box::new(alloc, item)?))
}

fn union(alloc: Global, first: TypeTerm, second: TypeTerm) -> Result<TypeTerm, AllocError> {
    Ok(TypeTerm::Union(vec![in alloc; first, second]?))
}

// The text of a type's normal form.
fn form(alloc: Global, term: TypeTerm) -> Result<Text, AllocError> {
    term_text(alloc, &normal(alloc, term)?)
}

// Types of the ranks from the tuples on, the last first.
fn late_ranks(alloc: Global) -> Result<TypeTerm, AllocError> {
    let mut members = Vec::new(alloc);
    members.push(TypeTerm::NoneTerm)?;
    members.push(TypeTerm::Callable(Box::new(alloc, TypeTerm::Any)?))?;
    members.push(class_of(alloc, "A")?)?;
    members.push(class(alloc, "B")?)?;
    members.push(class(alloc, "A")?)?;
    members.push(TypeTerm::TupleOf(Box::new(alloc, TypeTerm::Int)?))?;
    members.push(TypeTerm::Tuple(Vec::new(alloc)))?;
    Ok(TypeTerm::Union(members))
}

// Types of the ranks before the tuples, the last first.
fn early_ranks(alloc: Global) -> Result<TypeTerm, AllocError> {
    let mut members = Vec::new(alloc);
    let value = Box::new(alloc, TypeTerm::Int)?;
    members.push(TypeTerm::Dict(Box::new(alloc, TypeTerm::Str)?, value))?;
    members.push(list(alloc, TypeTerm::Str)?)?;
    members.push(list(alloc, TypeTerm::Int)?)?;
    members.push(TypeTerm::Bytes)?;
    members.push(TypeTerm::Str)?;
    members.push(TypeTerm::Float)?;
    members.push(TypeTerm::Int)?;
    members.push(TypeTerm::Bool)?;
    Ok(TypeTerm::Union(members))
}

#[test]
fn a_union_is_flat_and_in_order(rt: HostRuntime) -> Result<(), Fail> {
    let alloc = rt.alloc();
    let inner = union(alloc, TypeTerm::Str, TypeTerm::Int)?;
    let outer = TypeTerm::Union(vec![in alloc; TypeTerm::NoneTerm, TypeTerm::Str, inner]?);
    assert_eq!(rt;
        form(alloc, outer)?.bytes(),
        b"Union[int, str, None]".as_slice()
    );
    let ranks = union(alloc, late_ranks(alloc)?, early_ranks(alloc)?)?;
    assert_eq!(rt;
        form(alloc, ranks)?.bytes(),
        b"Union[bool, int, float, str, bytes, List[int], List[str], Dict[str, int], Tuple[()], Tuple[int, ...], A, B, Type[A], Callable[..., Any], None]".as_slice()
    );
    Ok(())
}

#[test]
fn members_go_where_others_take_them(rt: HostRuntime) -> Result<(), Fail> {
    let alloc = rt.alloc();
    let any = union(alloc, TypeTerm::Int, TypeTerm::Any)?;
    assert_eq!(rt; form(alloc, any)?.bytes(), b"Any".as_slice());
    let none = TypeTerm::Union(Vec::new(alloc));
    assert_eq!(rt; form(alloc, none)?.bytes(), b"Any".as_slice());
    let twice = union(alloc, TypeTerm::Int, TypeTerm::Int)?;
    assert_eq!(rt; form(alloc, twice)?.bytes(), b"int".as_slice());
    let numbers = union(alloc, TypeTerm::Int, TypeTerm::Bool)?;
    assert_eq!(rt;
        form(alloc, numbers)?.bytes(),
        b"Union[bool, int]".as_slice()
    );
    let optional = union(alloc, TypeTerm::NoneTerm, TypeTerm::Float)?;
    assert_eq!(rt;
        form(alloc, list(alloc, optional)?)?.bytes(),
        b"List[Optional[float]]".as_slice()
    );
    let faults = union(
        alloc,
        class(alloc, "KeyError")?,
        class(alloc, "LookupError")?,
    )?;
    assert_eq!(rt; form(alloc, faults)?.bytes(), b"LookupError".as_slice());
    let apart = union(
        alloc,
        class(alloc, "KeyError")?,
        class(alloc, "IndexError")?,
    )?;
    assert_eq!(rt;
        form(alloc, apart)?.bytes(),
        b"Union[IndexError, KeyError]".as_slice()
    );
    let classes = union(
        alloc,
        class_of(alloc, "ValueError")?,
        class_of(alloc, "Exception")?,
    )?;
    assert_eq!(rt;
        form(alloc, classes)?.bytes(),
        b"Union[Type[Exception], Type[ValueError]]".as_slice()
    );
    Ok(())
}

#[test]
fn chains_go_up_to_the_top(rt: HostRuntime) {
    assert_eq!(rt;
        exception_chain("UnicodeDecodeError"),
        [
            "UnicodeDecodeError",
            "UnicodeError",
            "ValueError",
            "Exception",
            "BaseException"
        ]
        .as_slice()
    );
    assert_eq!(rt;
        exception_chain("BaseException"),
        ["BaseException"].as_slice()
    );
    assert_eq!(rt; exception_chain("object").len(), 0);
    assert_eq!(rt; exception_chains().len(), 34);
}

#[test]
fn a_type_is_told_from_others(rt: HostRuntime) -> Result<(), Fail> {
    let alloc = rt.alloc();
    let optional = union(alloc, TypeTerm::Int, TypeTerm::NoneTerm)?;
    let term = list(alloc, optional)?;
    let other = term.copy(alloc)?;
    assert!(rt; term.same(&other));
    assert!(rt; !term.same(&TypeTerm::Int));
    assert!(rt; !class(alloc, "int")?.same(&TypeTerm::Int));
    assert_eq!(rt;
        term_text(alloc, &other)?.bytes(),
        b"List[Optional[int]]".as_slice()
    );
    // A mark for the list, one for the union, each member behind a 1, and the end.
    assert_eq!(rt;
        term_code(alloc, &other)?.bytes(),
        [7, 14, 1, 3, 1, 1, 0].as_slice()
    );
    Ok(())
}

// A stub that declares `x: int`.
fn stub_of_x(alloc: Global) -> Result<Stub, AllocError>
    ensures { IfOk result (λ stub. IsProperStub (stub_view stub)) }
{
    let mut names = Sequence::new(alloc);
    names.push(StubName {
        name: named(alloc, "x")?,
        term: TypeTerm::Int,
    })?;
    Ok(Stub {
        names,
        funs: Sequence::new(alloc),
        classes: Sequence::new(alloc),
    })
}

#[test]
fn a_stub_is_found_under_its_name(rt: HostRuntime) -> Result<(), Fail> {
    let mut stubs = StubSet::new(rt.alloc());
    stubs.add("geo", stub_of_x(rt.alloc())?)?;
    let stub = stubs.find("geo").ok_or("no stub")?;
    assert_eq!(rt; stub.names.len(), 1);
    assert!(rt; stubs.find("ge").is_none());
    Ok(())
}

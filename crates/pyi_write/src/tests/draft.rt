//! Stubs made of the data.
use crate::tests::sketch::{Class, Def, Name, Row, Sort};
use place_ids::{Sequence, Text};
use std::alloc::{AllocError, Global};
use type_terms::{Stub, StubClass, StubFun, StubName, StubParam, TypeTerm};

fn text(alloc: Global, letters: &str) -> Result<Text, AllocError> {
    let mut text = Text::new(alloc);
    text.push(letters.as_bytes())?;
    Ok(text)
}

/// The type with its parts as they stand.
#[cycle(parts)]
pub fn term(alloc: Global, sort: &Sort) -> Result<TypeTerm, AllocError> {
    let term = match sort {
        Sort::Any => TypeTerm::Any,
        Sort::Nothing => TypeTerm::NoneTerm,
        Sort::Bool => TypeTerm::Bool,
        Sort::Int => TypeTerm::Int,
        Sort::Float => TypeTerm::Float,
        Sort::Str => TypeTerm::Str,
        Sort::Bytes => TypeTerm::Bytes,
        Sort::List(item) => TypeTerm::List(boxed(alloc, item)?),
        Sort::Dict(key, value) => TypeTerm::Dict(boxed(alloc, key)?, boxed(alloc, value)?),
        Sort::Tuple(places) => TypeTerm::Tuple(terms(alloc, places)?),
        Sort::TupleOf(item) => TypeTerm::TupleOf(boxed(alloc, item)?),
        Sort::Class(name) => TypeTerm::Class(text(alloc, name)?),
        Sort::ClassOf(name) => TypeTerm::ClassOf(text(alloc, name)?),
        Sort::Callable(answer) => TypeTerm::Callable(boxed(alloc, answer)?),
        Sort::Union(members) => TypeTerm::Union(terms(alloc, members)?),
    };
    Ok(term)
}

#[cycle(parts)]
fn boxed(alloc: Global, sort: &Sort) -> Result<Box<TypeTerm>, AllocError> {
    let term = term(alloc, sort)?;
    let boxed = Box::new(alloc, term)?;
    Ok(boxed)
}

#[cycle(parts)]
fn terms(alloc: Global, sorts: &[Sort]) -> Result<Vec<TypeTerm>, AllocError> {
    let mut terms = Vec::new(alloc);
    for sort in sorts {
        let term = term(alloc, sort)?;
        terms.push(term)?;
    }
    Ok(terms)
}

fn names(alloc: Global, given: &[Name]) -> Result<Sequence<StubName>, AllocError> {
    let mut names = Sequence::new(alloc);
    for Name(letters, sort) in given {
        let name = text(alloc, letters)?;
        let term = term(alloc, sort)?;
        names.push(StubName { name, term })?;
    }
    Ok(names)
}

// Each parameter has a type, which no stub shows.
fn params(
    alloc: Global,
    given: &[&str],
    defaults: usize,
) -> Result<Sequence<StubParam>, AllocError> {
    let mut params = Sequence::new(alloc);
    for (place, letters) in given.iter().enumerate() {
        let name = text(alloc, letters)?;
        let term = TypeTerm::List(Box::new(alloc, TypeTerm::Any)?);
        let has_default = defaults <= place;
        params.push(StubParam {
            name,
            term,
            has_default,
        })?;
    }
    Ok(params)
}

fn funs(alloc: Global, given: &[Def]) -> Result<Sequence<StubFun>, AllocError> {
    let mut funs = Sequence::new(alloc);
    for Def(letters, given_params, defaults, sort) in given {
        let name = text(alloc, letters)?;
        let params = params(alloc, given_params, *defaults)?;
        let result = term(alloc, sort)?;
        funs.push(StubFun {
            name,
            params,
            result,
        })?;
    }
    Ok(funs)
}

fn base(alloc: Global, given: Option<&str>) -> Result<Option<Text>, AllocError> {
    match given {
        Some(letters) => {
            let base = text(alloc, letters)?;
            Ok(Some(base))
        }
        None => Ok(None),
    }
}

fn classes(alloc: Global, given: &[Class]) -> Result<Sequence<StubClass>, AllocError> {
    let mut classes = Sequence::new(alloc);
    for class in given {
        let name = text(alloc, class.name)?;
        let base = base(alloc, class.base)?;
        let names = names(alloc, class.names)?;
        let funs = funs(alloc, class.funs)?;
        classes.push(StubClass {
            name,
            base,
            names,
            funs,
        })?;
    }
    Ok(classes)
}

/// The stub of a row.
pub fn stub(alloc: Global, row: &Row) -> Result<Stub, AllocError> {
    let names = names(alloc, row.names)?;
    let funs = funs(alloc, row.funs)?;
    let classes = classes(alloc, row.classes)?;
    Ok(Stub {
        names,
        funs,
        classes,
    })
}

/// The stub of one name.
pub fn named(alloc: Global, letters: &str, term: TypeTerm) -> Result<Stub, AllocError> {
    let name = text(alloc, letters)?;
    let mut names = Sequence::new(alloc);
    names.push(StubName { name, term })?;
    let funs = Sequence::new(alloc);
    let classes = Sequence::new(alloc);
    Ok(Stub {
        names,
        funs,
        classes,
    })
}

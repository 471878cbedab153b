//! What the tables of one module tell.
use super::outline::Line::{self, *};
use super::outline::module_of;
use place_ids::{ClassId, FunId, Id, NameId, Names};
use py_scope::{Scopes, scope};
use std::alloc::Global;
use std::test::Fail;

static LINES: [(u32, usize, Line); 10] = [
    (1, 0, Def("f", &["a", "b"])),
    (2, 1, Assign("c")),
    (3, 0, Class("A", "ValueError")),
    (4, 1, Def("m", &["self"])),
    (5, 0, Class("B", "A")),
    (6, 1, Read("x", "y")),
    (7, 0, Store("z")),
    (8, 0, Assign("b")),
    (9, 0, Annotated("a")),
    (10, 0, From("i")),
];

// The scopes of these lines, copied once, and their names.
#[derive(Drop)]
struct Told {
    scopes: Scopes,
    names: Names,
}

impl Told {
    fn id(&self, text: &str) -> NameId {
        self.names.find(text).unwrap_or(NameId::new(u32::MAX))
    }
}

fn make(alloc: Global) -> Result<Told, Fail> {
    let module = module_of(alloc, &LINES)?;
    let found = scope(alloc, &module)?;
    let scopes = found.copy()?;
    let names = module.names.copy()?;
    Ok(Told { scopes, names })
}

#[test]
fn a_chain_goes_up_to_the_bases(rt: HostRuntime) -> Result<(), Fail> {
    let told = make(rt.alloc())?;
    let chain: Vec<ClassId> = told.scopes.chain(ClassId::new(1)).collect(rt.alloc())?;
    assert_eq!(rt;
        chain.as_slice(),
        [ClassId::new(1), ClassId::new(0)].as_slice()
    );
    assert_eq!(rt; told.scopes.chain(ClassId::new(2)).next(), None);
    Ok(())
}

#[test]
fn locals_are_numbered_from_the_parameters_on(rt: HostRuntime) -> Result<(), Fail> {
    let told = make(rt.alloc())?;
    let (b, c) = (told.id("b"), told.id("c"));
    let inside = [
        told.scopes.local(FunId::new(0), b),
        told.scopes.local(FunId::new(0), c),
    ];
    assert_eq!(rt; inside, [Some(1), Some(2)]);
    let outside = [
        told.scopes.local(FunId::new(1), c),
        told.scopes.local(FunId::new(2), b),
    ];
    assert_eq!(rt; outside, [None, None]);
    Ok(())
}

#[test]
fn locals_are_counted_with_the_parameters(rt: HostRuntime) -> Result<(), Fail> {
    let told = make(rt.alloc())?;
    let counts = [
        told.scopes.local_count(FunId::new(0)),
        told.scopes.local_count(FunId::new(1)),
        told.scopes.local_count(FunId::new(2)),
    ];
    assert_eq!(rt; counts, [Some(3), Some(1), None]);
    Ok(())
}

#[test]
fn a_module_binds_its_own_names(rt: HostRuntime) -> Result<(), Fail> {
    let told = make(rt.alloc())?;
    let bound = [
        told.scopes.bound(told.id("f")),
        told.scopes.bound(told.id("i")),
        told.scopes.bound(told.id("c")),
    ];
    assert_eq!(rt; bound, [true, true, false]);
    Ok(())
}

#[test]
fn a_chain_ends_in_an_exception_class(rt: HostRuntime) -> Result<(), Fail> {
    let told = make(rt.alloc())?;
    let native = told.scopes.base_row(ClassId::new(1));
    assert_eq!(rt; native.map(|native| native.text), Some("ValueError"));
    Ok(())
}

#[test]
fn methods_and_members_are_of_the_own_body(rt: HostRuntime) -> Result<(), Fail> {
    let told = make(rt.alloc())?;
    let (m, x) = (told.id("m"), told.id("x"));
    let methods = [
        told.scopes.method(ClassId::new(0), m),
        told.scopes.method(ClassId::new(1), m),
    ];
    assert_eq!(rt; methods, [Some(FunId::new(1)), None]);
    let binds = [
        told.scopes.binds(ClassId::new(1), x),
        told.scopes.binds(ClassId::new(0), x),
    ];
    assert_eq!(rt; binds, [true, false]);
    Ok(())
}

#[test]
fn attributes_are_stored_and_members_are_not(rt: HostRuntime) -> Result<(), Fail> {
    let told = make(rt.alloc())?;
    let stored = [
        told.scopes.stored(told.id("z")),
        told.scopes.stored(told.id("x")),
    ];
    assert_eq!(rt; stored, [true, false]);
    Ok(())
}

#[test]
fn values_are_printed_in_the_order_of_their_texts(rt: HostRuntime) -> Result<(), Fail> {
    let told = make(rt.alloc())?;
    let (a, b) = (told.id("a"), told.id("b"));
    assert_eq!(rt; told.scopes.printed(), [a, b].as_slice());
    Ok(())
}

//! What the calls answer where memory is ample.
ghost use Rattle.std.specs.Prelude.{◌≡◌, false, codes, IfOk};
ghost use Rattle.std.specs.Str.{bytes_eq};
ghost use Rattle.type_terms.specs.Terms.{class};
ghost use Rattle.type_terms.specs.View.{term_view};

use abstract_shapes::{Joined, Place, Row, Shape, Shapes, type_of};
use builtin_stubs::{Basic, Builtins, NativeId};
use flow_graph::Truth;
use place_ids::{ClassId, FunId, Id, NameId, Names, ShapeId, SiteId, Text};
use shape_sets::ShapeSet;
use std::alloc::{AllocError, Global};
use std::test::Fail;
use type_terms::{TypeTerm, term_text};

fn text(alloc: Global, words: &str) -> Result<Text, AllocError>
    ensures { IfOk result (λ made. made ≡ words.now) }
{
    let mut made = Text::new(alloc);
    made.push(words.as_bytes())?;
    Ok(made)
}

fn native(name: &str) -> Row {
    match Builtins.fun(name) {
        Some(id) => Row::Builtin(id),
        None => Row::Builtin(NativeId::new(999)),
    }
}

fn method(name: &str) -> Row {
    match Builtins.attr(Basic::List, name) {
        Some(id) => Row::Builtin(id),
        None => Row::Builtin(NativeId::new(999)),
    }
}

fn class_named(alloc: Global, name: &str) -> Result<TypeTerm, AllocError>
    ensures { IfOk result (λ made. term_view made ≡ class name.now) }
{
    Ok(TypeTerm::Class(text(alloc, name)?))
}

// The id of a value from outside of a class.
fn intern_class(alloc: Global, shapes: &mut Shapes, name: &str) -> Result<ShapeId, Fail>
    requires { bytes_eq (codes "object") name.now ≡ false }
{
    let term = class_named(alloc, name)?;
    Ok(shapes.intern(Shape::Given(term))?)
}

// The id of a list from outside, whose elements are of a class.
fn intern_list(alloc: Global, shapes: &mut Shapes, name: &str) -> Result<ShapeId, Fail> {
    let item = Box::new(alloc, class_named(alloc, name)?)?;
    Ok(shapes.intern(Shape::Given(TypeTerm::List(item)))?)
}

#[test]
fn a_place_has_each_shape_once(rt: HostRuntime) -> Result<(), Fail> {
    let mut joined = Joined::new(rt.alloc());
    let element = Place::Element(SiteId::new(3));
    let grown = [
        joined.add(element, ShapeId::new(7))?,
        joined.add(element, ShapeId::new(7))?,
        joined.add(element, ShapeId::new(2))?,
        joined.add(Place::Key(SiteId::new(3)), ShapeId::new(7))?,
        joined.add(Place::Part(SiteId::new(3), 1), ShapeId::new(7))?,
        joined.add(Place::Part(SiteId::new(3), 0), ShapeId::new(7))?,
        joined.add(Place::Raised, ShapeId::new(7))?,
        joined.add(Place::Raised, ShapeId::new(7))?,
    ];
    assert_eq!(rt; grown, [true, false, true, true, true, true, true, false]);
    assert_eq!(rt;
        joined.at(element),
        [ShapeId::new(7), ShapeId::new(2)].as_slice()
    );
    assert_eq!(rt; joined.at(Place::Value(SiteId::new(3))).len(), 0);
    assert_eq!(rt; joined.entry_count(), 6);
    Ok(())
}

#[test]
fn attributes_are_no_members(rt: HostRuntime) -> Result<(), Fail> {
    let mut joined = Joined::new(rt.alloc());
    let class = ClassId::new(4);
    let name = NameId::new(9);
    joined.add(Place::Attribute(class, name), ShapeId::new(1))?;
    joined.add(Place::Global(name), ShapeId::new(2))?;
    assert_eq!(rt; joined.at(Place::Member(class, name)).len(), 0);
    assert_eq!(rt; joined.at(Place::Attribute(class, NameId::new(4))).len(), 0);
    assert_eq!(rt;
        joined.at(Place::Attribute(class, name)),
        [ShapeId::new(1)].as_slice()
    );
    assert_eq!(rt;
        joined.at(Place::Global(name)),
        [ShapeId::new(2)].as_slice()
    );
    Ok(())
}

#[test]
fn equal_shapes_have_one_id(rt: HostRuntime) -> Result<(), Fail> {
    let mut shapes = Shapes::new(rt.alloc());
    let site = SiteId::new(1);
    let ids = [
        shapes.intern(Shape::TrueValue)?,
        shapes.intern(Shape::FalseValue)?,
        shapes.intern(Shape::Tuple(site, None))?,
        shapes.intern(Shape::Tuple(site, Some(0)))?,
        shapes.intern(Shape::Tuple(site, None))?,
        shapes.intern(Shape::TrueValue)?,
    ];
    assert_eq!(rt; ids.map(|id| id.number()), [0, 1, 2, 3, 2, 0]);
    assert_eq!(rt; shapes.len(), 4);
    Ok(())
}

#[test]
fn equal_types_from_outside_have_one_id(rt: HostRuntime) -> Result<(), Fail> {
    let alloc = rt.alloc();
    let mut shapes = Shapes::new(alloc);
    let ids = [
        intern_list(alloc, &mut shapes, "A")?,
        intern_list(alloc, &mut shapes, "B")?,
        intern_class(alloc, &mut shapes, "A")?,
        intern_list(alloc, &mut shapes, "A")?,
    ];
    assert_eq!(rt; ids.map(|id| id.number()), [0, 1, 2, 0]);
    Ok(())
}

#[test]
fn equal_names_of_stubs_have_one_id(rt: HostRuntime) -> Result<(), Fail> {
    let alloc = rt.alloc();
    let mut shapes = Shapes::new(alloc);
    let module = shapes.intern(Shape::Module(text(alloc, "os")?))?;
    let fun = Row::StubFun(text(alloc, "os")?, text(alloc, "f")?);
    let fun = shapes.intern(Shape::Native(fun))?;
    let class = Row::StubClass(text(alloc, "os")?, text(alloc, "f")?);
    let class = shapes.intern(Shape::Native(class))?;
    let again = shapes.intern(Shape::Module(text(alloc, "os")?))?;
    let ids = [module, fun, class, again];
    assert_eq!(rt; ids.map(|id| id.number()), [0, 1, 2, 0]);
    Ok(())
}

#[test]
fn a_copy_is_the_same_shape(rt: HostRuntime) -> Result<(), Fail> {
    let alloc = rt.alloc();
    let row = Row::StubFun(text(alloc, "os")?, text(alloc, "f")?);
    let native = Shape::Native(row);
    let again = native.copy(alloc)?;
    assert!(rt; native == again);
    assert!(rt; native != Shape::Module(text(alloc, "os")?));
    Ok(())
}

#[test]
fn shapes_have_kinds(rt: HostRuntime) -> Result<(), Fail> {
    let alloc = rt.alloc();
    let site = SiteId::new(1);
    let rows = [
        (Shape::NoneValue, Basic::NoneKind),
        (Shape::FalseValue, Basic::Bool),
        (Shape::Bytes, Basic::Bytes),
        (Shape::Dict(site), Basic::Dict),
        (Shape::Tuple(site, None), Basic::Tuple),
        (Shape::Pair(site), Basic::Tuple),
        (Shape::View(site), Basic::View),
        (Shape::Inst(ClassId::new(1)), Basic::Other),
        (Shape::Given(class_named(alloc, "range")?), Basic::Range),
        (
            Shape::Given(class_named(alloc, "KeyError")?),
            Basic::Exception,
        ),
        (Shape::Given(TypeTerm::Bytes), Basic::Bytes),
        (Shape::Ext, Basic::Other),
    ];
    for (shape, kind) in rows.iter() {
        assert_eq!(rt; shape.kind(), *kind);
    }
    Ok(())
}

// The shapes that a table of sets speaks of, under the numbers beside them, and the parts of their containers.
#[derive(Drop)]
struct World {
    alloc: Global,
    shapes: Shapes,
    joined: Joined,
    names: Names,
    classes: Vec<NameId>,
}

// 0 to 6, then tables of one site each: lists 7 to 10, a dict 11.
fn add_basic(shapes: &mut Shapes) -> Result<(), Fail> {
    shapes.intern(Shape::NoneValue)?;
    shapes.intern(Shape::TrueValue)?;
    shapes.intern(Shape::FalseValue)?;
    shapes.intern(Shape::Int)?;
    shapes.intern(Shape::Float)?;
    shapes.intern(Shape::Str)?;
    shapes.intern(Shape::Bytes)?;
    shapes.intern(Shape::List(SiteId::new(0)))?;
    shapes.intern(Shape::List(SiteId::new(1)))?;
    shapes.intern(Shape::List(SiteId::new(2)))?;
    shapes.intern(Shape::List(SiteId::new(3)))?;
    shapes.intern(Shape::Dict(SiteId::new(4)))?;
    Ok(())
}

// Tuples 12 to 14, a pair 15, a view 16, functions 17 to 18, classes and instances 19 to 22, a list 23.
fn add_made(shapes: &mut Shapes) -> Result<(), Fail> {
    shapes.intern(Shape::Tuple(SiteId::new(5), Some(0)))?;
    shapes.intern(Shape::Tuple(SiteId::new(6), Some(2)))?;
    shapes.intern(Shape::Tuple(SiteId::new(7), None))?;
    shapes.intern(Shape::Pair(SiteId::new(8)))?;
    shapes.intern(Shape::View(SiteId::new(9)))?;
    shapes.intern(Shape::Fun(FunId::new(0)))?;
    shapes.intern(Shape::Bound(ClassId::new(0), FunId::new(1)))?;
    shapes.intern(Shape::Class(ClassId::new(0)))?;
    shapes.intern(Shape::Inst(ClassId::new(0)))?;
    shapes.intern(Shape::Class(ClassId::new(1)))?;
    shapes.intern(Shape::Inst(ClassId::new(1)))?;
    shapes.intern(Shape::List(SiteId::new(10)))?;
    Ok(())
}

// Natives 24 to 29, a module 30, Ext 31, Any 32, a list 33.
fn add_natives(alloc: Global, shapes: &mut Shapes) -> Result<(), Fail> {
    shapes.intern(Shape::Native(native("int")))?;
    shapes.intern(Shape::Native(native("len")))?;
    shapes.intern(Shape::Native(native("ValueError")))?;
    let fun = Row::StubFun(text(alloc, "m")?, text(alloc, "f")?);
    shapes.intern(Shape::Native(fun))?;
    let class = Row::StubClass(text(alloc, "m")?, text(alloc, "C")?);
    shapes.intern(Shape::Native(class))?;
    let method = Row::StubMethod(text(alloc, "m")?, text(alloc, "C")?, text(alloc, "f")?);
    shapes.intern(Shape::Native(method))?;
    shapes.intern(Shape::Module(text(alloc, "m")?))?;
    shapes.intern(Shape::Ext)?;
    shapes.intern(Shape::Any)?;
    shapes.intern(Shape::List(SiteId::new(11)))?;
    Ok(())
}

// Values from outside 34 to 39, a list 40, a method of it 41.
fn add_given(alloc: Global, shapes: &mut Shapes) -> Result<(), Fail> {
    for name in ["KeyError", "LookupError", "IndexError", "m.C", "range"] {
        intern_class(alloc, shapes, name)?;
    }
    intern_list(alloc, shapes, "C")?;
    let list = shapes.intern(Shape::List(SiteId::new(12)))?;
    shapes.intern(Shape::BoundNative(list, method("append")))?;
    Ok(())
}

// The sites of lists and tuples, and which shapes their elements have.
const ELEMENTS: [(u32, u32); 10] = [
    (0, 3),
    (2, 7),
    (3, 9),
    (7, 4),
    (7, 3),
    (10, 3),
    (10, 16),
    (11, 34),
    (11, 35),
    (12, 40),
];

fn add_parts(joined: &mut Joined) -> Result<(), AllocError> {
    for (site, number) in ELEMENTS {
        joined.add(Place::Element(SiteId::new(site)), ShapeId::new(number))?;
    }
    for site in [6, 8] {
        joined.add(Place::Part(SiteId::new(site), 0), ShapeId::new(3))?;
        joined.add(Place::Part(SiteId::new(site), 1), ShapeId::new(5))?;
    }
    joined.add(Place::Key(SiteId::new(4)), ShapeId::new(5))?;
    joined.add(Place::Value(SiteId::new(4)), ShapeId::new(3))?;
    joined.add(Place::Value(SiteId::new(4)), ShapeId::new(0))?;
    Ok(())
}

// Sets of shapes by their numbers, a depth, and the type that is printed.
const SETS: [(&[u32], u32, &str); 52] = [
    (&[], 3, "Any"),
    (&[3], 0, "Any"),
    (&[0], 3, "None"),
    (&[1], 3, "bool"),
    (&[2], 1, "bool"),
    (&[1, 2], 3, "bool"),
    (&[3], 3, "int"),
    (&[1, 3], 3, "Union[bool, int]"),
    (&[4], 3, "float"),
    (&[3, 4, 5, 6], 3, "Union[int, float, str, bytes]"),
    (&[0, 3], 3, "Optional[int]"),
    (&[0, 1, 2], 3, "Optional[bool]"),
    (&[0, 3, 5], 3, "Union[int, str, None]"),
    (&[7], 3, "List[int]"),
    (&[7], 1, "List[Any]"),
    (&[8], 3, "List[Any]"),
    (&[9], 3, "List[List[int]]"),
    (&[9], 2, "List[List[Any]]"),
    (&[10], 3, "List[List[List[Any]]]"),
    (&[10], 4, "List[List[List[int]]]"),
    (&[40], 3, "List[List[List[Any]]]"),
    (&[7, 8], 3, "Union[List[Any], List[int]]"),
    (&[7, 9], 3, "Union[List[List[int]], List[int]]"),
    (&[7, 9], 1, "List[Any]"),
    (&[11], 3, "Dict[str, Optional[int]]"),
    (&[0, 11], 1, "Optional[Dict[Any, Any]]"),
    (&[12], 3, "Tuple[()]"),
    (&[13], 3, "Tuple[int, str]"),
    (&[13], 1, "Tuple[Any, Any]"),
    (&[14], 3, "Tuple[Union[int, float], ...]"),
    (&[13, 15], 3, "Tuple[int, str]"),
    (
        &[12, 14, 15],
        3,
        "Union[Tuple[()], Tuple[Union[int, float], ...], Tuple[int, str]]",
    ),
    (&[16], 3, "Any"),
    (&[3, 16], 3, "Any"),
    (&[23], 3, "List[Any]"),
    (&[17, 18, 25, 27, 29, 41], 3, "Callable[..., Any]"),
    (&[0, 17], 3, "Optional[Callable[..., Any]]"),
    (&[19], 3, "Type[Point]"),
    (&[20], 3, "Point"),
    (&[20, 22], 3, "Union[Line, Point]"),
    (
        &[19, 20, 21, 22, 0],
        3,
        "Union[Line, Point, Type[Line], Type[Point], None]",
    ),
    (&[24], 3, "Type[int]"),
    (
        &[24, 26, 28],
        3,
        "Union[Type[ValueError], Type[int], Type[m.C]]",
    ),
    (&[30], 3, "Any"),
    (&[0, 31], 3, "Any"),
    (&[32], 3, "Any"),
    (&[34], 3, "KeyError"),
    (&[34, 35], 3, "LookupError"),
    (&[34, 36], 3, "Union[IndexError, KeyError]"),
    (&[33], 3, "List[LookupError]"),
    (&[0, 5, 37, 38], 3, "Union[str, m.C, range, None]"),
    (&[7, 39], 3, "Union[List[C], List[int]]"),
];

fn some_world(alloc: Global) -> Result<World, Fail> {
    let mut shapes = Shapes::new(alloc);
    add_basic(&mut shapes)?;
    add_made(&mut shapes)?;
    add_natives(alloc, &mut shapes)?;
    add_given(alloc, &mut shapes)?;
    let mut joined = Joined::new(alloc);
    add_parts(&mut joined)?;
    let mut names = Names::new(alloc);
    let mut classes = Vec::new(alloc);
    classes.push(names.intern("Point")?)?;
    classes.push(names.intern("Line")?)?;
    Ok(World {
        alloc,
        shapes,
        joined,
        names,
        classes,
    })
}

// The text of the type of a set.
fn printed(world: &World, numbers: &[u32], depth: u32) -> Result<Text, Fail> {
    let mut set = ShapeSet::new(world.alloc, 42)?;
    for number in numbers {
        if *number < 42 {
            set.insert(ShapeId::new(*number));
        }
    }
    let made = type_of(
        world.alloc,
        &world.shapes,
        &world.joined,
        &world.names,
        &world.classes,
        &set,
        depth,
    )?;
    Ok(term_text(world.alloc, &made)?)
}

#[test]
fn sets_have_these_types(rt: HostRuntime) -> Result<(), Fail> {
    let world = some_world(rt.alloc())?;
    for (numbers, depth, words) in SETS {
        assert_eq!(rt; printed(&world, numbers, depth)?.bytes(), words.as_bytes());
    }
    Ok(())
}

#[test]
fn shapes_are_true_or_not(rt: HostRuntime) -> Result<(), Fail> {
    let mut shapes = Shapes::new(rt.alloc());
    let none = shapes.intern(Shape::NoneValue)?;
    let of_none = shapes.truth(none);
    let list = shapes.intern(Shape::List(SiteId::new(0)))?;
    let of_list = shapes.truth(list);
    let inst = shapes.intern(Shape::Inst(ClassId::new(0)))?;
    let truths = [of_none, of_list, shapes.truth(inst)];
    assert_eq!(rt; truths, [Truth::No, Truth::Both, Truth::Yes]);
    Ok(())
}

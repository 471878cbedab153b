//! The growing calls of a world's tables, and what is answered where the same is asked again.
ghost use Rattle.std.specs.Prelude.{◌≡◌, ◌<◌, [], length, slice_get, IsTrue, IsSome};
ghost use Rattle.flow_graph.specs.Flows.{target_of};

use abstract_shapes::{Place, Shape};
use flow_graph::Edge;
use place_ids::{ContextId, FunId, Id, NameId, PointId, ShapeId, VarId};
use std::process::Abort;
use world_tables::{PointSpot, Tables, VariableSpot};

// A place of the first context.
fn spot(place: u32) -> PointSpot {
    PointSpot {
        context: ContextId::new(0),
        place,
        depth: 5,
    }
}

fn has_context(tables: &Tables, context: ContextId) -> bool
    ensures { IsTrue result → context < length tables.now.graph.flow.contexts }
{
    tables.graph().flow().context(context).is_some()
}

fn has_variable(tables: &Tables, var: VarId) -> bool
    ensures { IsTrue result → var < tables.now.graph.flow.vars }
{
    let _graph = tables.graph();
    var.number() < tables.variable_count()
}

fn has_no_point(tables: &Tables) -> bool
    ensures { IsTrue result → tables.now.points ≡ [] }
{
    tables.point_count() == 0
}

// Whether the context is the one that is finished next.
fn is_next(tables: &Tables, context: ContextId) -> bool
    ensures { IsTrue result → context ≡ tables.now.finished }
{
    context.number() == tables.finished()
}

// Whether facts of the point are about a variable.
fn has_target(tables: &Tables, point: PointId) -> bool
    ensures there { IsTrue result → point < length tables.now.graph.flow.points }
    ensures target { IsTrue result → IsSome (target_of (slice_get tables.now.graph.flow.points point)) }
{
    tables.graph().target(point).is_some()
}

fn has_shape(tables: &Tables, shape: ShapeId) -> bool
    ensures { IsTrue result → shape < length tables.now.graph.truths }
{
    tables.graph().truth(shape).is_some()
}

// The context of the module.
fn add_main(rt: &impl Abort, tables: &mut Tables) -> u32 {
    let added = tables.add_context(None, None, None);
    added.expect(rt, "memory").number()
}

// A function that is called from outside.
fn add_entry_context(rt: &impl Abort, tables: &mut Tables) -> u32 {
    let added = tables.add_context(None, None, Some(FunId::new(3)));
    added.expect(rt, "memory").number()
}

fn add_global(rt: &impl Abort, tables: &mut Tables) -> u32 {
    let added = tables.add_variable(&VariableSpot::Global(NameId::new(4)));
    added.expect(rt, "memory").number()
}

// A local of the first context.
fn add_local(rt: &impl Abort, tables: &mut Tables) -> u32 {
    let context = ContextId::new(0);
    assert!(rt; has_context(tables, context));
    let added = tables.add_variable(&VariableSpot::Local(context, 0));
    added.expect(rt, "memory").number()
}

// The first point, which is about the first variable.
fn add_first(rt: &impl Abort, tables: &mut Tables) -> u32 {
    let spot = PointSpot {
        context: ContextId::new(0),
        place: 0,
        depth: 5,
    };
    let target = VarId::new(0);
    assert!(rt; has_no_point(tables));
    assert!(rt; is_next(tables, spot.context));
    assert!(rt; has_context(tables, spot.context));
    assert!(rt; has_variable(tables, target));
    let added = tables.add_point(&spot, Some(target), true);
    added.expect(rt, "memory").number()
}

fn add_int(rt: &impl Abort, tables: &mut Tables) -> u32 {
    let added = tables.add_shape(Shape::Int);
    added.expect(rt, "memory").number()
}

fn add_text(rt: &impl Abort, tables: &mut Tables) -> u32 {
    let added = tables.add_shape(Shape::Str);
    added.expect(rt, "memory").number()
}

// From the first point to itself.
fn add_edge(rt: &impl Abort, tables: &mut Tables) -> bool {
    let point = PointId::new(0);
    assert!(rt; has_target(tables, point));
    let edge = Edge {
        from: point,
        to: point,
        assigns: true,
        asks: None,
    };
    tables.add_edge(edge).expect(rt, "memory")
}

// That the first shape comes at the first point.
fn add_fact(rt: &impl Abort, tables: &mut Tables) -> bool {
    let (point, shape) = (PointId::new(0), ShapeId::new(0));
    assert!(rt; has_target(tables, point));
    assert!(rt; has_shape(tables, shape));
    tables.add_fact(point, shape, &[]).expect(rt, "a fact")
}

// That the name has the first shape.
fn add_entry(rt: &impl Abort, tables: &mut Tables) -> bool {
    let shape = ShapeId::new(0);
    assert!(rt; has_shape(tables, shape));
    let place = Place::Global(NameId::new(4));
    tables.add_entry(place, shape).expect(rt, "memory")
}

fn finish(rt: &impl Abort, tables: &mut Tables) {
    let next = ContextId::new(tables.finished());
    assert!(rt; is_next(tables, next));
    assert!(rt; has_context(tables, next));
    tables.finish_next();
}

// The first point and what it needs.
fn begin(rt: &impl Abort, tables: &mut Tables) {
    assert_eq!(rt; add_main(rt, tables), 0);
    assert_eq!(rt; add_global(rt, tables), 0);
    assert_eq!(rt; add_first(rt, tables), 0);
}

fn check_contexts(rt: &impl Abort, tables: &mut Tables) {
    assert_eq!(rt; add_main(rt, tables), 0);
    assert_eq!(rt; add_entry_context(rt, tables), 1);
    assert_eq!(rt; add_main(rt, tables), 0);
    finish(rt, tables);
    assert_eq!(rt; tables.finished(), 1);
}

#[test]
fn contexts_have_one_id(rt: HostRuntime) {
    let mut tables = Tables::new(rt.alloc());
    check_contexts(&rt, &mut tables);
}

fn check_variables(rt: &impl Abort, tables: &mut Tables) {
    assert_eq!(rt; add_main(rt, tables), 0);
    assert_eq!(rt; add_global(rt, tables), 0);
    assert_eq!(rt; add_local(rt, tables), 1);
    assert_eq!(rt; add_global(rt, tables), 0);
    assert_eq!(rt; tables.variable_count(), 2);
}

// The number of a variable, or 99.
fn variable_number(tables: &Tables, spot: &VariableSpot) -> u32 {
    match tables.variable_at(spot) {
        Some(var) => var.number(),
        None => 99,
    }
}

// Whether the variable is that global.
fn is_global(tables: &Tables, var: u32, name: u32) -> bool {
    tables.variable_spot(VarId::new(var)) == Some(VariableSpot::Global(NameId::new(name)))
}

fn check_found_variables(rt: &impl Abort, tables: &Tables) {
    let global = VariableSpot::Global(NameId::new(4));
    assert_eq!(rt; variable_number(tables, &global), 0);
    let slot = VariableSpot::Slot(ContextId::new(0), 0);
    assert_eq!(rt; variable_number(tables, &slot), 99);
    assert!(rt; is_global(tables, 0, 4));
    assert!(rt; !is_global(tables, 1, 4));
}

#[test]
fn variables_have_one_id(rt: HostRuntime) {
    let mut tables = Tables::new(rt.alloc());
    check_variables(&rt, &mut tables);
    check_found_variables(&rt, &tables);
}

// The number of the point at a place of the first context, or 99.
fn point_number(tables: &Tables, place: u32) -> u32 {
    match tables.point_at(&spot(place)) {
        Some(point) => point.number(),
        None => 99,
    }
}

// The depth at a point, or 99.
fn depth_at(tables: &Tables, number: u32) -> u32 {
    match tables.point_spot(PointId::new(number)) {
        Some(spot) => spot.depth,
        None => 99,
    }
}

fn check_points(rt: &impl Abort, tables: &Tables) {
    assert_eq!(rt; tables.point_count(), 1);
    assert_eq!(rt; point_number(tables, 0), 0);
    assert_eq!(rt; point_number(tables, 1), 99);
    assert_eq!(rt; depth_at(tables, 0), 5);
    assert_eq!(rt; depth_at(tables, 1), 99);
}

#[test]
fn points_are_found(rt: HostRuntime) {
    let mut tables = Tables::new(rt.alloc());
    begin(&rt, &mut tables);
    check_points(&rt, &tables);
}

fn is_text(tables: &Tables, number: u32) -> bool {
    matches!(
        tables.shapes().shape(ShapeId::new(number)),
        Some(Shape::Str)
    )
}

fn check_shapes(rt: &impl Abort, tables: &mut Tables) {
    assert_eq!(rt; add_int(rt, tables), 0);
    assert_eq!(rt; add_text(rt, tables), 1);
    assert_eq!(rt; add_int(rt, tables), 0);
    assert!(rt; is_text(tables, 1));
    assert!(rt; has_shape(tables, ShapeId::new(1)));
    assert!(rt; !has_shape(tables, ShapeId::new(2)));
}

#[test]
fn shapes_have_one_id(rt: HostRuntime) {
    let mut tables = Tables::new(rt.alloc());
    check_shapes(&rt, &mut tables);
}

fn check_new_items(rt: &impl Abort, tables: &mut Tables) {
    assert_eq!(rt; tables.item_count(), 1);
    assert!(rt; add_edge(rt, tables));
    assert!(rt; add_fact(rt, tables));
    assert!(rt; add_entry(rt, tables));
    assert_eq!(rt; tables.item_count(), 4);
}

fn check_known_items(rt: &impl Abort, tables: &mut Tables) {
    assert!(rt; !add_edge(rt, tables));
    assert!(rt; !add_fact(rt, tables));
    assert!(rt; !add_entry(rt, tables));
    assert_eq!(rt; tables.item_count(), 4);
}

// How many shapes the name has.
fn entry_count(tables: &Tables) -> usize {
    tables.joined().at(Place::Global(NameId::new(4))).len()
}

#[test]
fn items_are_new_once(rt: HostRuntime) {
    let mut tables = Tables::new(rt.alloc());
    begin(&rt, &mut tables);
    assert_eq!(rt; add_int(&rt, &mut tables), 0);
    check_new_items(&rt, &mut tables);
    check_known_items(&rt, &mut tables);
    assert_eq!(rt; entry_count(&tables), 1);
}

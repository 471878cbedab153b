//! What the calls answer where memory is ample.
ghost use Rattle.std.specs.Prelude.{◌≡◌};

use super::*;
use flow_graph::{Edge, Truth};
use place_ids::{FunId, Id, PointId, ShapeId, VarId};
use std::test::Fail;

fn pair(var: u32, shape: u32) -> Binding
    ensures { (result.var ≡ var) × (result.shape ≡ shape) }
{
    Binding {
        var: VarId::new(var),
        shape: ShapeId::new(shape),
    }
}

#[test]
fn a_map_holds_each_variable_once(rt: HostRuntime) -> Result<(), Fail> {
    let list = [pair(4, 1), pair(2, 0), pair(4, 1)];
    let map = GoalMap::from_bindings(rt.alloc(), &list)?.expect(&rt, "no two shapes");
    assert_eq!(rt; map.items(), [pair(2, 0), pair(4, 1)].as_slice());
    let shapes = [map.get(VarId::new(2)), map.get(VarId::new(1))];
    assert_eq!(rt; shapes, [Some(ShapeId::new(0)), None]);
    Ok(())
}

#[test]
fn two_shapes_make_no_map(rt: HostRuntime) -> Result<(), Fail> {
    let alloc = rt.alloc();
    let map = GoalMap::from_bindings(alloc, &[pair(2, 0)])?.expect(&rt, "no two shapes");
    let more = map
        .merge(&[pair(1, 1), pair(2, 0)])?
        .expect(&rt, "no two shapes");
    assert_eq!(rt; more.items(), [pair(1, 1), pair(2, 0)].as_slice());
    assert!(rt; more.copy()? == more);
    assert!(rt; map.merge(&[pair(2, 1)])?.is_none());
    assert!(rt; !map.same(&more));
    Ok(())
}

#[test]
fn shapes_keep_their_truths(rt: HostRuntime) -> Result<(), Fail> {
    let mut graph = Graph::new(rt.alloc());
    let shape = graph.add_shape(Truth::No)?;
    assert_eq!(rt; shape.number(), 0);
    let truths = [graph.truth(shape), graph.truth(ShapeId::new(1))];
    assert_eq!(rt; truths, [Some(Truth::No), None]);
    Ok(())
}

#[test]
fn items_are_counted_once(rt: HostRuntime) -> Result<(), Fail> {
    let mut graph = Graph::new(rt.alloc());
    let point = graph.add_point(None, true)?;
    let context = graph.add_context(None, Some(point), Some(FunId::new(3)))?;
    let again = graph.add_context(None, Some(point), Some(FunId::new(3)))?;
    assert_eq!(rt; [context.number(), again.number()], [0, 0]);
    let edge = Edge {
        from: point,
        to: point,
        assigns: false,
        asks: None,
    };
    assert!(rt; graph.add_edge(edge)?);
    assert_eq!(rt; (graph.item_count(), graph.target(point)), (2, None));
    Ok(())
}

#[test]
fn facts_stand_once(rt: HostRuntime) -> Result<(), Fail> {
    let mut graph = Graph::new(rt.alloc());
    let var = graph.add_var()?;
    let shape = graph.add_shape(Truth::Both)?;
    let point = graph.add_point(Some(var), true)?;
    let first = graph.add_fact(point, shape, &[]);
    let again = graph.add_fact(point, shape, &[]);
    assert_eq!(rt; (first, again), (Ok(true), Ok(false)));
    assert_eq!(rt; graph.shapes_of(var), [shape].as_slice());
    assert_eq!(rt; graph.facts_at(point).len(), 1);
    assert!(rt; graph.facts_at(PointId::new(1)).is_empty());
    assert_eq!(rt; graph.places_of(point, shape), [0].as_slice());
    Ok(())
}

#[test]
fn a_source_with_two_shapes_is_refused(rt: HostRuntime) -> Result<(), Fail> {
    let mut graph = Graph::new(rt.alloc());
    let var = graph.add_var()?;
    let shape = graph.add_shape(Truth::Both)?;
    let other = graph.add_shape(Truth::Yes)?;
    let point = graph.add_point(Some(var), true)?;
    let source = [Binding { var, shape }, Binding { var, shape: other }];
    let refused = graph.add_fact(point, shape, &source);
    assert_eq!(rt; refused, Err(FactFault::TwoShapes(var)));
    Ok(())
}

//! What the calls answer where memory is ample.
ghost use Rattle.std.specs.Prelude.{◌≡◌, ◌<◌, None};

use super::*;
use place_ids::{ContextId, FunId, Id, PointId, ShapeId, VarId};
use std::alloc::Global;
use std::marker::Brand;
use std::process::Abort;
use std::sync::ledger::{Blank, Ledger};
use std::test::Fail;

fn edge(from: u32, to: u32, assigns: bool) -> Edge
    ensures { (result.from ≡ from) × (result.to ≡ to) × (result.asks ≡ None) }
{
    Edge {
        from: PointId::new(from),
        to: PointId::new(to),
        assigns,
        asks: None,
    }
}

#[test]
fn ids_number_what_was_added(rt: HostRuntime) -> Result<(), Fail> {
    let mut flow = Flow::new(rt.alloc());
    let var = flow.add_var()?;
    let next = flow.add_var()?;
    let root = flow.add_point(Some(var), true)?;
    let point = flow.add_point(None, false)?;
    assert_eq!(rt;
        [var.number(), next.number(), root.number(), point.number()],
        [0, 1, 0, 1]
    );
    let targets = [
        flow.target(root),
        flow.target(point),
        flow.target(PointId::new(2)),
    ];
    assert_eq!(rt; targets, [Some(var), None, None]);
    let roots = [
        flow.root(root),
        flow.root(point),
        flow.root(PointId::new(2)),
    ];
    assert_eq!(rt; roots, [true, false, false]);
    Ok(())
}

#[test]
fn an_equal_context_keeps_its_id(rt: HostRuntime) -> Result<(), Fail> {
    let mut flow = Flow::new(rt.alloc());
    let call = flow.add_point(None, true)?;
    let module = flow.add_context(None, None, None)?;
    let own = flow.add_context(None, None, Some(FunId::new(0)))?;
    let called = flow.add_context(Some(module), Some(call), Some(FunId::new(0)))?;
    let again = flow.add_context(Some(module), Some(call), Some(FunId::new(0)))?;
    assert_eq!(rt;
        [
            module.number(),
            own.number(),
            called.number(),
            again.number()
        ],
        [0, 1, 2, 2]
    );
    let context = Context {
        parent: Some(module),
        call: Some(call),
        fun: Some(FunId::new(0)),
    };
    let told = [flow.context(called), flow.context(ContextId::new(3))];
    assert_eq!(rt; told, [Some(context), None]);
    Ok(())
}

fn edges_into<L: Ledger>(rt: &impl Abort, alloc: Global, blank: Blank) -> Result<(), Fail>
    requires { (blank.name ≡ L.name) × (blank.parts ≡ L.parts) × (0 < L.parts) }
{
    let mut steps: Steps<L> = Steps::new(blank);
    let mut flow = Flow::new(alloc);
    let var = flow.add_var()?;
    let first = flow.add_point(Some(var), true)?;
    let second = flow.add_point(None, false)?;
    let asking = Edge {
        from: first,
        to: second,
        assigns: true,
        asks: Some(Ask {
            var,
            test: Test::Is(ShapeId::new(7)),
        }),
    };
    let plain = edge(1, 1, false);
    let added = [
        flow.add_edge(asking)?,
        flow.add_edge(plain)?,
        flow.add_edge(asking)?,
        flow.add_edge(edge(1, 1, true))?,
    ];
    assert_eq!(rt; added, [true, true, false, true]);
    let flow = &flow;
    let into = flow.into(second, &mut steps);
    assert_eq!(rt; into, [asking, plain, edge(1, 1, true)].as_slice());
    assert!(rt; flow.into(first, &mut steps).is_empty());
    assert!(rt; flow.into(PointId::new(2), &mut steps).is_empty());
    Ok(())
}

#[test]
fn edges_stand_at_their_end_in_order(rt: HostRuntime) -> Result<(), Fail> {
    let alloc = rt.alloc();
    edges_into::<Brand>(&rt, alloc, Blank::new(1))
}

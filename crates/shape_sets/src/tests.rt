//! What the calls answer where memory is ample.
use super::*;
use place_ids::{Id, ShapeId};
use std::test::Fail;

fn members(set: &ShapeSet) -> [bool; 5] {
    [
        set.contains(ShapeId::new(0)),
        set.contains(ShapeId::new(1)),
        set.contains(ShapeId::new(2)),
        set.contains(ShapeId::new(3)),
        set.contains(ShapeId::new(9)),
    ]
}

#[test]
fn joining_grows_a_set_once(rt: HostRuntime) -> Result<(), Fail> {
    let mut set = ShapeSet::new(rt.alloc(), 3)?;
    let mut other = ShapeSet::new(rt.alloc(), 3)?;
    let inserted = [
        set.insert(ShapeId::new(0)),
        other.insert(ShapeId::new(0)),
        other.insert(ShapeId::new(2)),
        other.insert(ShapeId::new(2)),
    ];
    assert_eq!(rt; inserted, [true, true, true, false]);
    let within = [set.is_subset(&other), other.is_subset(&set)];
    assert_eq!(rt; within, [true, false]);
    let grew = [set.join(&other), set.join(&other)];
    assert_eq!(rt; grew, [true, false]);
    assert_eq!(rt; members(&set), [true, false, true, false, false]);
    assert_eq!(rt;
        [set.is_subset(&other), other.is_subset(&set)],
        [true, true]
    );
    Ok(())
}

#[test]
fn room_keeps_the_members(rt: HostRuntime) -> Result<(), Fail> {
    let mut set = ShapeSet::new(rt.alloc(), 2)?;
    set.insert(ShapeId::new(1));
    set.reserve(4)?;
    let added = set.insert(ShapeId::new(3));
    set.reserve(1)?;
    let again = set.insert(ShapeId::new(3));
    assert_eq!(rt; [added, again], [true, false]);
    assert_eq!(rt; members(&set), [false, true, false, true, false]);
    Ok(())
}

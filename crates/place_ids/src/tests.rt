//! What the calls answer where memory is ample.
use super::*;
use std::test::Fail;

#[test]
fn names_stand_once(rt: HostRuntime) -> Result<(), Fail> {
    let mut names = Names::new(rt.alloc());
    let ids = [
        names.intern("self")?.number(),
        names.intern("")?.number(),
        names.intern("self")?.number(),
    ];
    let same = names.copy()?;
    let next = names.intern("other")?.number();
    assert_eq!(rt; (ids, next), ([0, 1, 0], 2));
    let found = [names.find(""), names.find("other"), same.find("other")];
    assert_eq!(rt; found, [Some(NameId::new(1)), Some(NameId::new(2)), None]);
    let texts = [
        names.text(NameId::new(0)),
        same.text(NameId::new(1)),
        same.text(NameId::new(2)),
    ];
    assert_eq!(rt; texts, [Some("self"), Some(""), None]);
    Ok(())
}

#[test]
fn rows_stand_under_their_ids(rt: HostRuntime) -> Result<(), Fail> {
    let mut table: Table<FunId, u8> = Table::new(rt.alloc());
    let ids = [table.push(7)?.number(), table.push(5)?.number()];
    let rows = [
        table.get(FunId::new(0)).copied(),
        table.get(FunId::new(1)).copied(),
        table.get(FunId::new(2)).copied(),
    ];
    assert_eq!(rt;
        (ids, table.len(), rows),
        ([0, 1], 2, [Some(7), Some(5), None])
    );
    Ok(())
}

#[test]
fn texts_and_sequences_grow(rt: HostRuntime) -> Result<(), Fail> {
    let mut text = Text::new(rt.alloc());
    text.push(b"def")?;
    text.push(b" f")?;
    assert_eq!(rt; text.bytes(), b"def f".as_slice());
    let mut sequence = Sequence::new(rt.alloc());
    sequence.push(4)?;
    sequence.push(2)?;
    assert_eq!(rt; (sequence.items(), sequence.len()), ([4, 2].as_slice(), 2));
    Ok(())
}

fn kept<I: Id>() -> u32 {
    I::new(3).number()
}

#[test]
fn ids_keep_their_numbers(rt: HostRuntime) {
    let tree = [
        kept::<NameId>(),
        kept::<FunId>(),
        kept::<ClassId>(),
        kept::<SiteId>(),
    ];
    let graph = [
        kept::<VarId>(),
        kept::<ShapeId>(),
        kept::<PointId>(),
        kept::<ContextId>(),
    ];
    assert_eq!(rt; (tree, graph, kept::<LineNo>()), ([3; 4], [3; 4], 3));
}

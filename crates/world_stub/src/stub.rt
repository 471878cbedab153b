//! The stub of a world.
ghost use Rattle.std.specs.Prelude.{◌≡◌, ℕ, List, map, IfOk};
ghost use Rattle.type_terms.specs.Stubs.{Stub as StubView, name_view, stub_view};
ghost use Rattle.type_terms.specs.View.{term_view};
ghost use Rattle.scope_rules.specs.NameLists.{text_of};
ghost use Rattle.world_rules.specs.Stubs.{IsStubOf};
ghost use Rattle.abstract_vm.specs.Worlds.{items_in, source, IsWorldOf};
ghost use Rattle.world_stub.specs.Results.{IsTypeAt, IsRowOf, AreRowsOf};
ghost use Rattle.world_stub.specs.Solved.{OnlySolved};

use crate::ends::end_points;
use crate::seen::seen_shapes;
use abstract_shapes::type_of;
use abstract_vm::World;
use flow_graph::Steps;
use place_ids::{NameId, Names, PointId, Sequence, Text};
use program_tables::Program;
use std::alloc::{AllocError, Global};
use std::sync::ledger::Ledger;
use type_terms::{Stub, StubName, TypeTerm};
use world_queries::laws::ends_by_numbers;
use world_rules::laws::what_fires_is_a_query;
use world_tables::laws::given_by_numbers;

/// How deep containers are printed.
const PRINTED_DEPTH: u32 = 3;

/// The stub: each printed name with the type of what it has where the module ends.
pub fn stub_of<L: Ledger>(
    alloc: Global,
    program: &Program,
    world: &mut World,
    steps: &mut Steps<L>,
) -> Result<Stub, AllocError>
    ensures stub { (stubs : List (List ℕ × StubView)) (depth : ℕ) → IsWorldOf (source program.now stubs depth world.old) world.old →
        IfOk result (λ stub. IsStubOf (source program.now stubs depth world.old) (items_in world.old) (stub_view stub)) }
    ensures same { OnlySolved world.old world.new }
{
    ends_by_numbers();
    given_by_numbers();
    what_fires_is_a_query();
    let ends = end_points(alloc, program, world)?;
    let names = rows_of(alloc, program, world, ends.as_slice(), steps)?;
    Ok(Stub {
        names,
        funs: Sequence::new(alloc),
        classes: Sequence::new(alloc),
    })
}

// Each printed name in its order, with its type.
fn rows_of<L: Ledger>(
    alloc: Global,
    program: &Program,
    world: &mut World,
    ends: &[PointId],
    steps: &mut Steps<L>,
) -> Result<Sequence<StubName>, AllocError>
    ensures rows { IfOk result (λ rows. AreRowsOf program.now world.old ends.now program.now.scopes.printed (map name_view rows)) }
    ensures same { OnlySolved world.old world.new }
{
    let mut rows = Sequence::new(alloc);
    for name in program.scopes().printed() {
        let row = row_of(alloc, program, world, ends, *name, steps)?;
        rows.push(row)?;
    }
    Ok(rows)
}

fn row_of<L: Ledger>(
    alloc: Global,
    program: &Program,
    world: &mut World,
    ends: &[PointId],
    name: NameId,
    steps: &mut Steps<L>,
) -> Result<StubName, AllocError>
    ensures row { IfOk result (λ row. IsRowOf program.now world.old ends.now name (name_view row)) }
    ensures same { OnlySolved world.old world.new }
{
    let term = type_at(alloc, program, world, ends, name, steps)?;
    let mut text = Text::new(alloc);
    text.push(text_of(program.names(), name).as_bytes())?;
    Ok(StubName { name: text, term })
}

// The type of the shapes that a global is seen to have.
fn type_at<L: Ledger>(
    alloc: Global,
    program: &Program,
    world: &mut World,
    ends: &[PointId],
    name: NameId,
    steps: &mut Steps<L>,
) -> Result<TypeTerm, AllocError>
    ensures printed { IfOk result (λ term. IsTypeAt program.now world.old ends.now name (term_view term)) }
    ensures same { OnlySolved world.old world.new }
{
    let set = seen_shapes(alloc, world, ends, name, steps)?;
    // That no place has two rows stands in what the joined tables say of their count.
    let _count = world.joined().entry_count();
    let _graph = world.graph();
    let classes = program.class_names();
    let term = type_of(
        alloc,
        world.shapes(),
        world.joined(),
        program.names(),
        classes,
        &set,
        PRINTED_DEPTH,
    )?;
    Ok(term)
}

// The text of a name, or none where there is no such name.
fn text_of(names: &Names, name: NameId) -> &str
    ensures { result.now ≡ text_of names.now name }
{
    match names.text(name) {
        Some(text) => text,
        None => "",
    }
}

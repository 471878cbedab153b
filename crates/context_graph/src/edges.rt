//! The edges of a context.
ghost use Rattle.std.specs.Prelude.{◌≡◌, ◌+◌, ◌<◌, ◌^◌, true, false, Some, length, slice_get, option_map, IfOk, OnOk, IsSome};
ghost use Rattle.std.specs.List.{Contains};
ghost use Rattle.flow_graph.specs.Validity.{IsAskThere};
ghost use Rattle.typegraph.specs.Validity.{IsShapeAskThere};
ghost use Rattle.stack_code.specs.declared.op.Op.{Op as OpRow};
ghost use Rattle.stack_code.specs.Depths.{HasDepth};
ghost use Rattle.stack_code.specs.Validity.{IsValid};
ghost use Rattle.stack_code.specs.Effects.{falls};
ghost use Rattle.world_rules.specs.Branches.{ask_top, is_call};
ghost use Rattle.world_rules.specs.Items.{an_edge};
ghost use Rattle.world_rules.specs.Places.{code_of, slot, below_top};
ghost use Rattle.world_rules.specs.Rules.{IsPoint, Stands, Leads};
ghost use Rattle.world_rules.specs.Sources.{Source};
ghost use Rattle.world_tables.specs.Tables.{the_point, ask_at, test_at, items_of, AreTables, IsUsedIn};
ghost use Rattle.world_tables.specs.Rows.{contexts_of, the_context, tables_of};
ghost use Rattle.context_code.specs.Tests.{IsPlain};
ghost use Rattle.context_graph.specs.Edges.{edge_from};
ghost use Rattle.context_graph.specs.Growth.{IsStep, IsPart};
ghost use Rattle.context_graph.specs.Places.{IsOpOf, HavePoints, HasFall, HasJump, HasEdges, HaveEdges};

use crate::kept::kept;
use crate::spots::{point_of, spot_at};
use crate::variables::add_variable;
use context_code::{fall_test, is_call, jump_test, top_spot};
use flow_graph::{Ask, Edge, Test};
use place_ids::{ContextId, PointId};
use stack_code::{Op, ValidCode};
use std::alloc::AllocError;
use world_tables::{PointSpot, Tables};

/// Adds the edges of a context's instructions, in the order of their places.
pub(crate) fn add_edges(
    tables: &mut Tables,
    code: &ValidCode,
    context: ContextId,
) -> Result<(), AllocError>
    requires there { context < length tables.old.graph.flow.contexts }
    requires short { length code.now.ops < 2 ^ 32 }
    ensures step { IsStep tables.old tables.new }
    ensures keeps { (s : Source) → AreTables s (tables_of tables.old) → code_of s.program (the_context (contexts_of tables.old) context) ≡ Some code.now →
        IsPart s context tables.old tables.new }
    ensures edges { (s : Source) → AreTables s (tables_of tables.old) → code_of s.program (the_context (contexts_of tables.old) context) ≡ Some code.now →
        HavePoints s (tables_of tables.old) (the_context (contexts_of tables.old) context) (length code.now.ops) →
        OnOk result (HaveEdges s (tables_of tables.new) (the_context (contexts_of tables.old) context) (length code.now.ops)) }
{
    for place in 0..code.code().ops.len() {
        add_edges_at(tables, code, context, place as u32)?;
    }
    Ok(())
}

// Adds the edges of the instruction at a place, if the place is a point.
fn add_edges_at(
    tables: &mut Tables,
    code: &ValidCode,
    context: ContextId,
    place: u32,
) -> Result<(), AllocError>
    requires there { context < length tables.old.graph.flow.contexts }
    requires short { length code.now.ops < 2 ^ 32 }
    ensures step { IsStep tables.old tables.new }
    ensures keeps { (s : Source) → AreTables s (tables_of tables.old) → code_of s.program (the_context (contexts_of tables.old) context) ≡ Some code.now →
        IsPart s context tables.old tables.new }
    ensures edges { (s : Source) → AreTables s (tables_of tables.old) → code_of s.program (the_context (contexts_of tables.old) context) ≡ Some code.now →
        HavePoints s (tables_of tables.old) (the_context (contexts_of tables.old) context) (length code.now.ops) →
        OnOk result (HasEdges s (tables_of tables.new) (the_context (contexts_of tables.old) context) place) }
{
    match spot_at(code, context, place) {
        Some(at) => add_edges_from(tables, code, &at),
        None => Ok(()),
    }
}

// Adds the edges of the instruction at a spot, if the spot is a point.
fn add_edges_from(tables: &mut Tables, code: &ValidCode, at: &PointSpot) -> Result<(), AllocError>
    requires there { at.now.context < length tables.old.graph.flow.contexts }
    requires short { length code.now.ops < 2 ^ 32 }
    requires place { HasDepth code.now at.now.place at.now.depth }
    ensures step { IsStep tables.old tables.new }
    ensures keeps { (s : Source) → AreTables s (tables_of tables.old) → code_of s.program (the_context (contexts_of tables.old) at.now.context) ≡ Some code.now →
        IsPart s at.now.context tables.old tables.new }
    ensures edges { (s : Source) → AreTables s (tables_of tables.old) → code_of s.program (the_context (contexts_of tables.old) at.now.context) ≡ Some code.now →
        HavePoints s (tables_of tables.old) (the_context (contexts_of tables.old) at.now.context) (length code.now.ops) →
        OnOk result (HasEdges s (tables_of tables.new) (the_context (contexts_of tables.old) at.now.context) at.now.place) }
{
    kept(tables);
    match code.code().ops.get(at.place as usize) {
        Some(op) => match tables.point_at(at) {
            Some(point) => add_both(tables, code, at, point, op),
            None => Ok(()),
        },
        None => Ok(()),
    }
}

// Adds the edges of the instruction at a point.
fn add_both(
    tables: &mut Tables,
    code: &ValidCode,
    at: &PointSpot,
    point: PointId,
    op: &Op,
) -> Result<(), AllocError>
    requires there { at.now.context < length tables.old.graph.flow.contexts }
    requires point { slice_get tables.old.points point ≡ Some at.now }
    requires next { at.now.place + 1 < 2 ^ 32 }
    requires valid { IsValid code.now }
    ensures step { IsStep tables.old tables.new }
    ensures keeps { (s : Source) → AreTables s (tables_of tables.old) → IsOpOf s tables.old code.now at.now op.now → IsPart s at.now.context tables.old tables.new }
    ensures fall { (s : Source) → AreTables s (tables_of tables.old) → IsOpOf s tables.old code.now at.now op.now →
        HavePoints s (tables_of tables.old) (the_context (contexts_of tables.old) at.now.context) (length code.now.ops) →
        OnOk result (HasFall s (tables_of tables.new) (the_context (contexts_of tables.old) at.now.context) at.now.place at.now.depth op.now) }
    ensures jump { (s : Source) → AreTables s (tables_of tables.old) → IsOpOf s tables.old code.now at.now op.now →
        HavePoints s (tables_of tables.old) (the_context (contexts_of tables.old) at.now.context) (length code.now.ops) →
        OnOk result (HasJump s (tables_of tables.new) (the_context (contexts_of tables.old) at.now.context) at.now.place at.now.depth op.now) }
{
    add_fall(tables, code, at, point, op)?;
    add_jump(tables, code, at, point, op)
}

// Adds the edge to the next place, which assigns.
fn add_fall(
    tables: &mut Tables,
    code: &ValidCode,
    at: &PointSpot,
    point: PointId,
    op: &Op,
) -> Result<(), AllocError>
    requires there { at.now.context < length tables.old.graph.flow.contexts }
    requires point { slice_get tables.old.points point ≡ Some at.now }
    requires next { at.now.place + 1 < 2 ^ 32 }
    requires valid { IsValid code.now }
    ensures step { IsStep tables.old tables.new }
    ensures keeps { (s : Source) → AreTables s (tables_of tables.old) → IsOpOf s tables.old code.now at.now op.now → IsPart s at.now.context tables.old tables.new }
    ensures fall { (s : Source) → AreTables s (tables_of tables.old) → IsOpOf s tables.old code.now at.now op.now →
        HavePoints s (tables_of tables.old) (the_context (contexts_of tables.old) at.now.context) (length code.now.ops) →
        OnOk result (HasFall s (tables_of tables.new) (the_context (contexts_of tables.old) at.now.context) at.now.place at.now.depth op.now) }
{
    if goes_on(op) {
        match point_of(tables, code, at.context, at.place + 1) {
            Some(to) => add_edge(tables, at, point, to, true, fall_test(op)),
            None => Ok(()),
        }
    } else {
        Ok(())
    }
}

// Whether an instruction goes on to the next place by the rules of edges.
fn goes_on(op: &Op) -> bool
    ensures on { result ≡ true → (falls op.now ≡ true) × (is_call op.now ≡ false) }
    ensures off { result ≡ false → falls op.now ≡ true → is_call op.now ≡ false → ⊥ }
{
    op.falls() && !is_call(op)
}

// Adds the edge to where it jumps, which assigns nothing.
fn add_jump(
    tables: &mut Tables,
    code: &ValidCode,
    at: &PointSpot,
    point: PointId,
    op: &Op,
) -> Result<(), AllocError>
    requires there { at.now.context < length tables.old.graph.flow.contexts }
    requires point { slice_get tables.old.points point ≡ Some at.now }
    requires valid { IsValid code.now }
    ensures step { IsStep tables.old tables.new }
    ensures keeps { (s : Source) → AreTables s (tables_of tables.old) → IsOpOf s tables.old code.now at.now op.now → IsPart s at.now.context tables.old tables.new }
    ensures jump { (s : Source) → AreTables s (tables_of tables.old) → IsOpOf s tables.old code.now at.now op.now →
        HavePoints s (tables_of tables.old) (the_context (contexts_of tables.old) at.now.context) (length code.now.ops) →
        OnOk result (HasJump s (tables_of tables.new) (the_context (contexts_of tables.old) at.now.context) at.now.place at.now.depth op.now) }
{
    match op.goal() {
        Some(goal) => match point_of(tables, code, at.context, goal) {
            Some(to) => add_edge(tables, at, point, to, false, jump_test(op)),
            None => Ok(()),
        },
        None => Ok(()),
    }
}

// Adds an edge that asks this of the top of the stack.
fn add_edge(
    tables: &mut Tables,
    at: &PointSpot,
    from: PointId,
    to: PointId,
    assigns: bool,
    test: Option<Test>,
) -> Result<(), AllocError>
    requires there { at.now.context < length tables.old.graph.flow.contexts }
    requires from { slice_get tables.old.points from ≡ Some at.now }
    requires to { to < length tables.old.points }
    requires plain { IsPlain test }
    ensures step { IsStep tables.old tables.new }
    ensures keeps { (s : Source) (o : OpRow) → AreTables s (tables_of tables.old) → Stands s (the_context (contexts_of tables.old) at.now.context) at.now.place at.now.depth o →
        Leads (the_context (contexts_of tables.old) at.now.context) at.now.place at.now.depth o (edge_from tables.old at.now to assigns test) → IsPoint s (the_point (tables_of tables.old) to) →
        IsPart s at.now.context tables.old tables.new }
    ensures has { OnOk result (Contains (items_of (tables_of tables.new)) (an_edge (edge_from tables.old at.now to assigns test))) }
{
    let asks = ask_top(tables, at, test)?;
    kept(tables);
    let _added = tables.add_edge(Edge {
        from,
        to,
        assigns,
        asks,
    })?;
    Ok(())
}

// What is asked of the top of the stack, which is a variable then.
fn ask_top(
    tables: &mut Tables,
    at: &PointSpot,
    test: Option<Test>,
) -> Result<Option<Ask>, AllocError>
    requires there { at.now.context < length tables.old.graph.flow.contexts }
    requires plain { IsPlain test }
    ensures points { tables.new.points ≡ tables.old.points }
    ensures asks { IfOk result (λ asks. ask_at (tables_of tables.new) asks ≡
        ask_top (the_context (contexts_of tables.old) at.now.context) at.now.depth (option_map (test_at (tables_of tables.old)) test)) }
    ensures within { IfOk result (λ asks. IsAskThere asks tables.new.graph.flow.vars) }
    ensures shape { IfOk result (λ asks. IsShapeAskThere asks (length tables.new.graph.truths)) }
    ensures step { IsStep tables.old tables.new }
    ensures keeps { (s : Source) → AreTables s (tables_of tables.old) →
        (IsSome test → IsUsedIn s (contexts_of tables.old) (slot (the_context (contexts_of tables.old) at.now.context) (below_top at.now.depth 0))) →
        IsPart s at.now.context tables.old tables.new }
{
    let Some(test) = test else {
        return Ok(None);
    };
    let var = add_variable(tables, &top_spot(at))?;
    Ok(Some(Ask { var, test }))
}

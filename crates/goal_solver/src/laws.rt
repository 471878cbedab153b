//! Laws of what a solver remembers.
ghost use Rattle.graph_walks.specs.Growth.{IsWithin};
ghost use Rattle.std.specs.Prelude.{ℕ, Bool, Option};
ghost use Rattle.flow_graph.specs.declared.edge.Edge.{Edge};
ghost use Rattle.flow_graph.specs.declared.edge.Truth.{Truth};
ghost use Rattle.flow_graph.specs.declared.context.Context.{Context};
ghost use Rattle.flow_graph.specs.Flows.{with_var, with_context, with_point, with_edge};
ghost use Rattle.flow_graph.specs.Validity.{IsValid as IsValidFlow};
ghost use Rattle.typegraph.specs.declared.fact.Fact.{Fact};
ghost use Rattle.typegraph.specs.Graphs.{GraphTables, with_flow, with_row, with_shape, with_fact};
ghost use Rattle.typegraph.specs.Validity.{IsValid};
ghost use Rattle.goal_solver.specs.Graphs.{world_of};
ghost use Rattle.goal_solver.specs.Memos.{SolverState, IsSound, grown};

/// Where a graph has grown, what is remembered is right again after `grown`.
pub fn sound_after_growth()
    ensures { (s : SolverState) (old new : GraphTables) → IsWithin (world_of old) (world_of new) → IsSound s old → IsSound (grown s) new }
{}

/// A new variable, context or shape leaves what is remembered right, without `grown`.
pub fn sound_without_growth()
    ensures var { (s : SolverState) (g : GraphTables) → IsSound s g → IsSound s (with_flow (with_var g.flow) g) }
    ensures context { (s : SolverState) (g : GraphTables) (context : Context) → IsSound s g → IsSound s (with_flow (with_context context g.flow) g) }
    ensures shape { (s : SolverState) (g : GraphTables) (truth : Truth) → IsValid g → IsSound s g → IsSound s (with_shape truth g) }
{}

/// Each addition to a graph leaves a world that has all of the world before.
pub fn additions_grow()
    ensures var { (g : GraphTables) → IsWithin (world_of g) (world_of (with_flow (with_var g.flow) g)) }
    ensures context { (g : GraphTables) (context : Context) → IsWithin (world_of g) (world_of (with_flow (with_context context g.flow) g)) }
    ensures point { (g : GraphTables) (target : Option ℕ) (root : Bool) → IsValidFlow g.flow → IsValid g → IsWithin (world_of g) (world_of (with_row (with_point target root g.flow) g)) }
    ensures edge { (g : GraphTables) (edge : Edge) → IsWithin (world_of g) (world_of (with_flow (with_edge edge g.flow) g)) }
    ensures shape { (g : GraphTables) (truth : Truth) → IsWithin (world_of g) (world_of (with_shape truth g)) }
    ensures fact { (g : GraphTables) (point : ℕ) (fact : Fact) → IsWithin (world_of g) (world_of (with_fact point fact g)) }
{}

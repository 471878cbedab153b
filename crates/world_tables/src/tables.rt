//! The tables of a world.
ghost use Rattle.std.specs.Prelude.{◌≡◌, ◌↔◌, ◌⊎◌, ℕ, ◌+◌, ◌-◌, ◌^◌, ◌<◌, ◌≤◌, true, false, List, [], ◌∷◌, ◌++◌, None, Some, Ok, Err, length, take, map, option_map, slice_get, IsErrOf, IsOk, IsSome, IfSome, IfOk, OnOk, OnErr};
ghost use Rattle.std.specs.List.{All, Contains};
ghost use Rattle.std.specs.List.Sorted.{IsPermutation};
ghost use Rattle.flow_graph.specs.Flows.{target_of as flow_target, with_context, with_edge, HasEdge, HasContext};
ghost use Rattle.flow_graph.specs.Validity as flow_validity;
ghost use Rattle.flow_graph.specs.Validity.{IsThere, IsAskThere};
ghost use Rattle.typegraph.specs.Clashes.{IsFirstClash};
ghost use Rattle.typegraph.specs.Graphs.{with_flow, HasFact, IsWithFact};
ghost use Rattle.typegraph.specs.Validity as graph_validity;
ghost use Rattle.typegraph.specs.Validity.{IsShapeAskThere, IsBindingThere};
ghost use Rattle.abstract_shapes.specs.Numbering.{structure, structures, shape_at, HasId, IsOuter, IsThere as IsReceiverThere};
ghost use Rattle.abstract_shapes.specs.Shapes.{truth_of};
ghost use Rattle.abstract_shapes.specs.Tables.{entries};
ghost use Rattle.world_rules.specs.Places.{Context, Point};
ghost use Rattle.world_rules.specs.Sources.{Source};
ghost use Rattle.world_rules.specs.Items.{a_context, an_edge, a_fact, an_entry};
ghost use Rattle.world_rules.specs.Rules.{GivesAt, Gives};
ghost use Rattle.world_tables.specs.declared.spot.PointSpot.{PointSpot as Spot};
ghost use Rattle.world_tables.specs.Tables.{the_point, the_shape, edge_at, memory_at, items_of, AreTables, IsUsedIn, IsNewPoint, HasAll};
ghost use Rattle.world_tables.specs.Rows.{no_rows, contexts_of, context_of, the_context, variable_of, tables_of, with_graph, with_new_point, with_new_variable, IsSpotThere, IsCall, IsWithShapes, IsKept};

use crate::points::Points;
use crate::variables::Variables;
use crate::{PointSpot, VariableSpot};
use abstract_shapes::{Joined, Place, Shape, Shapes};
use flow_graph::{Ask, Edge, Test};
use place_ids::{ContextId, FunId, Id, PointId, PushFault, ShapeId, VarId};
use std::alloc::{AllocError, Global};
use std::marker::Model;
use typegraph::{Binding, FactFault, Graph};

/// A graph, the spots that its points and variables stand for, the shapes under its ids, and the joined tables.
#[derive(Debug, Drop)]
pub struct Tables {
    graph: Graph,
    finished: u32,
    points: Points,
    variables: Variables,
    shapes: Shapes,
    named: u32,
    joined: Joined,
}

// Of the shapes only those are seen that the graph has too, which may lack the last ones after a refusal.
impl Model for Tables {
    ghost use Rattle.std.specs.Prelude.{◌≡◌, take, length};
    ghost use Rattle.std.specs.Coded.{codes};
    ghost use Rattle.abstract_shapes.specs.contracts.shape.Shape as shape_row;
    ghost use Rattle.world_tables.specs.Rows.{WorldRows, IsKept};

    ghost Value = { WorldRows };

    ghost coded = { Prim.hlevel (codes, shape_row.the_row.coded) };

    ghost view = { λ t. record {
      graph = t.graph;
      finished = t.finished;
      points = t.points;
      variables = t.variables;
      shapes = take (length t.graph.truths) t.shapes;
      joined = t.joined;
    } };

    ghost invariant = { λ t. IsKept (record {
      graph = t.graph;
      finished = t.finished;
      points = t.points;
      variables = t.variables;
      shapes = take (length t.graph.truths) t.shapes;
      joined = t.joined;
    }) × (t.named ≡ length t.graph.truths) };
}

impl Tables {
    /// Tables with nothing in them. It takes no memory.
    pub fn new(alloc: Global) -> Tables
        ensures nothing { result ≡ no_rows }
        ensures tables { (s : Source) → AreTables s (tables_of result) }
    {
        Tables {
            graph: Graph::new(alloc),
            finished: 0,
            points: Points::new(alloc),
            variables: Variables::new(alloc),
            shapes: Shapes::new(alloc),
            named: 0,
            joined: Joined::new(alloc),
        }
    }

    pub fn graph(&self) -> &Graph
        ensures graph { result.now ≡ self.now.graph }
        ensures kept { IsKept self.now }
    {
        &self.graph
    }

    /// The shapes. The first ones are those that the graph has.
    pub fn shapes(&self) -> &Shapes
        ensures { take (length self.now.graph.truths) result.now ≡ self.now.shapes }
    {
        &self.shapes
    }

    pub fn joined(&self) -> &Joined
        ensures { result.now ≡ self.now.joined }
    {
        &self.joined
    }

    /// How many contexts, from the first on, have all their points, variables and edges.
    pub fn finished(&self) -> u32
        ensures { result ≡ self.now.finished }
    {
        self.finished
    }

    pub fn point_count(&self) -> u32
        ensures { result ≡ length self.now.points }
    {
        self.points.len()
    }

    pub fn variable_count(&self) -> u32
        ensures { result ≡ length self.now.variables }
    {
        self.variables.len()
    }

    /// Where a point stands, if there is one.
    pub fn point_spot(&self, point: PointId) -> Option<PointSpot>
        ensures { result ≡ slice_get self.now.points point }
    {
        self.points.get(point)
    }

    /// The point that stands there, if there is one.
    pub fn point_at(&self, spot: &PointSpot) -> Option<PointId>
        ensures found { IfSome result (λ id. slice_get self.now.points id ≡ Some spot.now) }
        ensures none { result ≡ None → Contains self.now.points spot.now → ⊥ }
    {
        self.points.find(spot)
    }

    /// What a variable is, if there is one.
    pub fn variable_spot(&self, var: VarId) -> Option<VariableSpot>
        ensures { result ≡ slice_get self.now.variables var }
    {
        self.variables.get(var)
    }

    /// The variable that this is, if there is one.
    pub fn variable_at(&self, spot: &VariableSpot) -> Option<VarId>
        ensures found { IfSome result (λ id. slice_get self.now.variables id ≡ Some spot.now) }
        ensures none { result ≡ None → Contains self.now.variables spot.now → ⊥ }
    {
        self.variables.find(spot)
    }

    /// The id of a variable. One that is there already keeps its id, and takes no memory.
    pub fn add_variable(&mut self, spot: &VariableSpot) -> Result<VarId, PushFault>
        requires context { IsSpotThere spot.now (length self.old.graph.flow.contexts) }
        ensures numbered { IfOk result (λ id. slice_get self.new.variables id ≡ Some spot.now) }
        ensures known { Contains self.old.variables spot.now → IsOk result × (self.new ≡ self.old) }
        ensures fresh { (Contains self.old.variables spot.now → ⊥) → OnOk result (self.new ≡ with_new_variable spot.now self.old) }
        ensures full { IsErrOf result PushFault.Full ↔ ((Contains self.old.variables spot.now → ⊥) × (self.old.graph.flow.vars ≡ 2 ^ 32 - 1)) }
        ensures refused { OnErr result (self.new ≡ self.old) }
        ensures keeps { (s : Source) → AreTables s (tables_of self.old) → IsUsedIn s (contexts_of self.old) (variable_of (contexts_of self.old) spot.now) →
            AreTables s (tables_of self.new) × (items_of (tables_of self.new) ≡ items_of (tables_of self.old)) }
    {
        match self.variables.find(spot) {
            Some(id) => Ok(id),
            None => self.push_variable(spot),
        }
    }

    /// The id of a point. One that is there already keeps its id, its target and whether it is a root, and takes no memory. A new one is of the context that is finished next, and its place is after those that are there.
    pub fn add_point(
        &mut self,
        spot: &PointSpot,
        target: Option<VarId>,
        root: bool,
    ) -> Result<PointId, PushFault>
        requires context { spot.now.context < length self.old.graph.flow.contexts }
        requires next { spot.now.context ≡ self.old.finished }
        requires order { (Contains self.old.points spot.now → ⊥) → (other : Spot) → Contains self.old.points other → other.context ≡ spot.now.context → other.place < spot.now.place }
        requires target { IsThere target self.old.graph.flow.vars }
        ensures numbered { IfOk result (λ id. slice_get self.new.points id ≡ Some spot.now) }
        ensures known { Contains self.old.points spot.now → IsOk result × (self.new ≡ self.old) }
        ensures fresh { (Contains self.old.points spot.now → ⊥) → OnOk result (self.new ≡ with_new_point spot.now target root self.old) }
        ensures full { IsErrOf result PushFault.Full ↔ ((Contains self.old.points spot.now → ⊥) × (length self.old.graph.flow.points ≡ 2 ^ 32 - 1)) }
        ensures refused { OnErr result (self.new ≡ self.old) }
        ensures keeps { (s : Source) → AreTables s (tables_of self.old) → IsNewPoint s (tables_of self.old) (the_context (contexts_of self.old) spot.now.context) spot.now.place spot.now.depth target root →
            AreTables s (tables_of self.new) × (items_of (tables_of self.new) ≡ items_of (tables_of self.old)) }
    {
        match self.points.find(spot) {
            Some(id) => Ok(id),
            None => self.push_point(spot, target, root),
        }
    }

    /// Adds an edge, and answers whether it is new.
    pub fn add_edge(&mut self, edge: Edge) -> Result<bool, AllocError>
        requires from { edge.from < length self.old.graph.flow.points }
        requires to { edge.to < length self.old.graph.flow.points }
        requires asks { IsAskThere edge.asks self.old.graph.flow.vars }
        requires shape { IsShapeAskThere edge.asks (length self.old.graph.truths) }
        ensures fresh { result ≡ Ok true → (HasEdge self.old.graph.flow edge → ⊥) × (self.new ≡ with_graph (with_flow (with_edge edge self.old.graph.flow) self.old.graph) self.old) }
        ensures known { result ≡ Ok false → HasEdge self.old.graph.flow edge × (self.new ≡ self.old) }
        ensures refused { OnErr result (self.new ≡ self.old) }
        ensures keeps { (s : Source) → AreTables s (tables_of self.old) → Gives s (items_of (tables_of self.old)) (an_edge (edge_at (tables_of self.old) edge)) → AreTables s (tables_of self.new) }
    {
        // The check finds the types within an edge only where a function names them.
        let _within: (Option<Ask>, Option<Test>) = (None, None);
        let added = self.graph.add_edge(edge);
        validity(&self.graph);
        added
    }

    /// The id of a context. One that is there already keeps its id, and takes no memory. A new one has no points yet.
    pub fn add_context(
        &mut self,
        parent: Option<ContextId>,
        call: Option<PointId>,
        fun: Option<FunId>,
    ) -> Result<ContextId, PushFault>
        requires call { IsCall self.old.points (length self.old.graph.flow.contexts) parent call fun }
        ensures numbered { IfOk result (λ id. slice_get self.new.graph.flow.contexts id ≡ Some (record { parent = parent; call = call; fun = fun })) }
        ensures known { HasContext self.old.graph.flow (record { parent = parent; call = call; fun = fun }) → IsOk result × (self.new ≡ self.old) }
        ensures fresh { (HasContext self.old.graph.flow (record { parent = parent; call = call; fun = fun }) → ⊥) →
            OnOk result (self.new ≡ with_graph (with_flow (with_context (record { parent = parent; call = call; fun = fun }) self.old.graph.flow) self.old.graph) self.old) }
        ensures full { IsErrOf result PushFault.Full ↔
            ((HasContext self.old.graph.flow (record { parent = parent; call = call; fun = fun }) → ⊥) × (length self.old.graph.flow.contexts ≡ 2 ^ 32 - 1)) }
        ensures refused { OnErr result (self.new ≡ self.old) }
        ensures apart { (s : Source) → AreTables s (tables_of self.old) → (HasContext self.old.graph.flow (record { parent = parent; call = call; fun = fun }) → ⊥) →
            Contains (contexts_of self.old) (context_of (contexts_of self.old) self.old.points (record { parent = parent; call = call; fun = fun })) → ⊥ }
        ensures keeps { (s : Source) → AreTables s (tables_of self.old) → (HasContext self.old.graph.flow (record { parent = parent; call = call; fun = fun }) → ⊥) →
            Gives s (items_of (tables_of self.old)) (a_context (context_of (contexts_of self.old) self.old.points (record { parent = parent; call = call; fun = fun }))) →
            AreTables s (tables_of self.new) }
    {
        let added = self.graph.add_context(parent, call, fun);
        validity(&self.graph);
        added
    }

    /// Says that the next context has all its points, variables and edges.
    pub fn finish_next(&mut self)
        requires { self.old.finished < length self.old.graph.flow.contexts }
        ensures finished { self.new ≡ record self.old { finished = self.old.finished + 1 } }
        ensures keeps { (s : Source) → AreTables s (tables_of self.old) → HasAll s (tables_of self.old) (the_context (contexts_of self.old) self.old.finished) → AreTables s (tables_of self.new) }
    {
        // That there are fewer contexts than a `u32` counts stands in what a flow says of itself.
        validity(&self.graph);
        self.finished += 1;
    }

    /// Adds a fact, and answers whether it is new: no fact of the point has this shape and this source set.
    pub fn add_fact(
        &mut self,
        point: PointId,
        shape: ShapeId,
        source: &[Binding],
    ) -> Result<bool, FactFault>
        requires point { IsSome (flow_target (slice_get self.old.graph.flow.points point)) }
        requires shape { shape < length self.old.graph.truths }
        requires source { All (IsBindingThere self.old.graph.flow.vars (length self.old.graph.truths)) source.now }
        ensures two_shapes { (var : ℕ) → result ≡ Err (FactFault.TwoShapes var) → IsFirstClash source.now var }
        ensures fresh { result ≡ Ok true → (HasFact self.old.graph point shape source.now → ⊥) × IsWithFact self.old.graph point shape source.now self.new.graph × (self.new ≡ with_graph self.new.graph self.old) }
        ensures known { result ≡ Ok false → HasFact self.old.graph point shape source.now × (self.new ≡ self.old) }
        ensures has { OnOk result (HasFact self.new.graph point shape source.now) }
        ensures refused { OnErr result (self.new ≡ self.old) }
        ensures keeps { (s : Source) → AreTables s (tables_of self.old) →
            GivesAt s (items_of (tables_of self.old)) (the_point (tables_of self.old) point)
            (a_fact (record { point = the_point (tables_of self.old) point; shape = the_shape (tables_of self.old) shape; source = memory_at (tables_of self.old) source.now })) →
            AreTables s (tables_of self.new) }
    {
        let added = self.graph.add_fact(point, shape, source);
        validity(&self.graph);
        added
    }

    /// The id of a shape, which the graph gets too. One that is there already keeps its id, and takes no memory. A refusal may leave shapes more, which are no items.
    pub fn add_shape(&mut self, shape: Shape) -> Result<ShapeId, PushFault>
        requires receiver { IsReceiverThere (length self.old.shapes) shape }
        requires given { IsOuter shape }
        ensures numbered { IfOk result (λ id. slice_get (structures self.new.shapes) id ≡ Some (structure (structures self.old.shapes) shape)) }
        ensures known { HasId (structures self.old.shapes) (structure (structures self.old.shapes) shape) → IsOk result × (self.new ≡ self.old) }
        // Full counts the shapes that are there afterwards, those that a refusal left too.
        ensures full { IsErrOf result PushFault.Full ↔
            ((HasId (structures self.new.shapes) (structure (structures self.old.shapes) shape) → ⊥) × (length self.new.shapes ≡ 2 ^ 32 - 1)) }
        ensures grown { IsWithShapes self.old self.new }
        ensures keeps { (s : Source) → AreTables s (tables_of self.old) → AreTables s (tables_of self.new) × (items_of (tables_of self.new) ≡ items_of (tables_of self.old)) }
    {
        let interned = self.shapes.intern(shape);
        // So there are fewer than a `u32` counts.
        let _count = self.shapes.len();
        let id = match interned {
            Ok(id) => id,
            Err(PushFault::Full) => {
                let fault = name_all(&mut self.graph, &self.shapes, &mut self.named);
                validity(&self.graph);
                return Err(fault);
            }
            Err(PushFault::Memory) => return Err(PushFault::Memory),
        };
        let done = name_shapes(&mut self.graph, &self.shapes, &mut self.named, id);
        validity(&self.graph);
        match done {
            Ok(()) => Ok(id),
            // The graph has fewer shapes than there are, so it isn't full.
            Err(_) => Err(PushFault::Memory),
        }
    }

    /// Adds an entry to the joined tables, and answers whether it is new. One that is there takes no memory.
    pub fn add_entry(&mut self, place: Place, shape: ShapeId) -> Result<bool, AllocError>
        requires shape { shape < length self.old.graph.truths }
        ensures fresh { result ≡ Ok true → (Contains (entries self.old.joined) (place, shape) → ⊥) × IsPermutation ((place, shape) ∷ entries self.old.joined) (entries self.new.joined) × (self.new ≡ record self.old { joined = self.new.joined }) }
        ensures known { result ≡ Ok false → Contains (entries self.old.joined) (place, shape) × (self.new ≡ self.old) }
        ensures refused { OnErr result (self.new ≡ self.old) }
        ensures keeps { (s : Source) (p : Point) → AreTables s (tables_of self.old) → GivesAt s (items_of (tables_of self.old)) p (an_entry place (the_shape (tables_of self.old) shape)) → AreTables s (tables_of self.new) }
    {
        // That no place has two rows stands in what the tables say of their count.
        let _count = self.joined.entry_count();
        self.joined.add(place, shape)
    }

    /// How many items there are, or 2^32 - 1 where there are more.
    pub fn item_count(&self) -> u32
        ensures few { length (items_of (tables_of self.now)) < 2 ^ 32 → result ≡ length (items_of (tables_of self.now)) }
        ensures many { 2 ^ 32 ≤ length (items_of (tables_of self.now)) → result ≡ 2 ^ 32 - 1 }
    {
        let entries = self.joined.entry_count();
        let others = self.graph.item_count();
        if entries < u64::from(u32::MAX - others) {
            others + entries as u32
        } else {
            u32::MAX
        }
    }

    // Gives a new variable the next id.
    fn push_variable(&mut self, spot: &VariableSpot) -> Result<VarId, PushFault>
        requires context { IsSpotThere spot.now (length self.old.graph.flow.contexts) }
        requires fresh { Contains self.old.variables spot.now → ⊥ }
        ensures numbered { IfOk result (λ id. slice_get self.new.variables id ≡ Some spot.now) }
        ensures added { OnOk result (self.new ≡ with_new_variable spot.now self.old) }
        ensures full { IsErrOf result PushFault.Full ↔ (self.old.graph.flow.vars ≡ 2 ^ 32 - 1) }
        ensures refused { OnErr result (self.new ≡ self.old) }
        ensures valid { OnOk result (flow_validity.IsValid self.new.graph.flow × graph_validity.IsValid self.new.graph) }
        ensures kept { IsKept self.old }
    {
        if self.variables.len() == u32::MAX {
            return Err(PushFault::Full);
        }
        if self.variables.push(spot).is_err() {
            return Err(PushFault::Memory);
        }
        match self.graph.add_var() {
            Ok(id) => {
                validity(&self.graph);
                Ok(id)
            }
            Err(fault) => {
                self.variables.pop();
                Err(fault)
            }
        }
    }

    // Gives a new point the next id.
    fn push_point(
        &mut self,
        spot: &PointSpot,
        target: Option<VarId>,
        root: bool,
    ) -> Result<PointId, PushFault>
        requires context { spot.now.context < length self.old.graph.flow.contexts }
        requires next { spot.now.context ≡ self.old.finished }
        requires order { (other : Spot) → Contains self.old.points other → other.context ≡ spot.now.context → other.place < spot.now.place }
        requires target { IsThere target self.old.graph.flow.vars }
        requires fresh { Contains self.old.points spot.now → ⊥ }
        ensures numbered { IfOk result (λ id. slice_get self.new.points id ≡ Some spot.now) }
        ensures added { OnOk result (self.new ≡ with_new_point spot.now target root self.old) }
        ensures full { IsErrOf result PushFault.Full ↔ (length self.old.graph.flow.points ≡ 2 ^ 32 - 1) }
        ensures refused { OnErr result (self.new ≡ self.old) }
        ensures valid { OnOk result (flow_validity.IsValid self.new.graph.flow × graph_validity.IsValid self.new.graph) }
        ensures kept { IsKept self.old }
    {
        if self.points.len() == u32::MAX {
            return Err(PushFault::Full);
        }
        if self.points.push(spot).is_err() {
            return Err(PushFault::Memory);
        }
        match self.graph.add_point(target, root) {
            Ok(id) => {
                validity(&self.graph);
                Ok(id)
            }
            Err(fault) => {
                self.points.pop();
                Err(fault)
            }
        }
    }
}

// Gives the graph the truth of each shape, where there are as many as ids, and answers why there can't be more.
fn name_all(graph: &mut Graph, shapes: &Shapes, named: &mut u32) -> PushFault
    requires all { length shapes.now ≡ 2 ^ 32 - 1 }
    requires counted { named.old ≡ length graph.old.truths }
    requires few { named.old ≤ length shapes.now }
    requires truths { graph.old.truths ≡ map truth_of (take named.old (structures shapes.now)) }
    ensures full { (result ≡ PushFault.Full) ↔ (named.new ≡ 2 ^ 32 - 1) }
    ensures more { named.old ≤ named.new }
    ensures counted { named.new ≡ length graph.new.truths }
    ensures few { named.new ≤ length shapes.now }
    ensures truths { graph.new ≡ record graph.old { truths = map truth_of (take named.new (structures shapes.now)) } }
{
    match name_shapes(graph, shapes, named, ShapeId::new(u32::MAX - 1)) {
        Ok(()) => PushFault::Full,
        Err(_) => PushFault::Memory,
    }
}

// Gives the graph the truth of each shape up to this one.
fn name_shapes(
    graph: &mut Graph,
    shapes: &Shapes,
    named: &mut u32,
    last: ShapeId,
) -> Result<(), PushFault>
    requires last { last < length shapes.now }
    requires counted { named.old ≡ length graph.old.truths }
    requires few { named.old ≤ length shapes.now }
    requires truths { graph.old.truths ≡ map truth_of (take named.old (structures shapes.now)) }
    ensures named { OnOk result (last < named.new) }
    ensures wanting { OnErr result (named.new ≤ last) }
    ensures more { named.old ≤ named.new }
    ensures counted { named.new ≡ length graph.new.truths }
    ensures few { named.new ≤ length shapes.now }
    ensures truths { graph.new ≡ record graph.old { truths = map truth_of (take named.new (structures shapes.now)) } }
    ensures stay { last < named.old → IsOk result × (named.new ≡ named.old) × (graph.new ≡ graph.old) }
{
    // So there are fewer than a `u32` counts.
    let _count = shapes.len();
    while *named <= last.number() {
        let truth = shapes.truth(ShapeId::new(*named));
        graph.add_shape(truth)?;
        *named += 1;
    }
    Ok(())
}

// A graph and its flow are valid always.
fn validity(graph: &Graph)
    ensures flow { flow_validity.IsValid graph.now.flow }
    ensures graph { graph_validity.IsValid graph.now }
{
    let _target = graph.flow().target(PointId::new(0));
}

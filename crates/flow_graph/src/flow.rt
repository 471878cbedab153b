//! A flow: points, edges between them, variables and contexts.
ghost use Rattle.std.specs.Prelude.{◌≡◌, ◌↔◌, ◌+◌, ◌-◌, ◌^◌, ◌<◌, [], true, false, Ok, Some, None, ◌≤◌, length, slice_get, IsErrOf, IsOk, IfOk, IfSome, OnOk, OnErr};
ghost use Rattle.flow_graph.specs.Flows.{into_of, target_of, root_of, with_var, with_point, with_context, with_edge, HasEdge, HasContext};
ghost use Rattle.flow_graph.specs.Validity.{IsThere, IsAskThere, IsValid};

use crate::point::Point;
use crate::{Context, Edge, Steps};
use indexmap::IndexSet;
use place_ids::{ContextId, FunId, Id, PointId, PushFault, VarId};
use std::alloc::{AllocError, Global};
use std::marker::Model;
use std::sync::ledger::Ledger;

/// Variables, points and contexts under ids that number them from 0, and the edges into each point. Its ids are always there.
#[derive(Debug, Drop)]
pub struct Flow {
    alloc: Global,
    vars: u32,
    points: Vec<Point>,
    contexts: IndexSet<Context>,
}

impl Model for Flow {
    ghost use Rattle.flow_graph.specs.Flows.{FlowTables};
    ghost use Rattle.flow_graph.specs.Validity.{IsValid};

    ghost Value = { FlowTables };

    ghost view = { λ f. record { vars = f.vars; points = f.points.items; contexts = f.contexts.keys } };

    ghost invariant = { λ f. IsValid (record { vars = f.vars; points = f.points.items; contexts = f.contexts.keys }) };
}

impl Flow {
    /// A flow with nothing in it. It takes no memory.
    pub fn new(alloc: Global) -> Flow
        ensures { result ≡ record { vars = 0; points = []; contexts = [] } }
    {
        Flow {
            alloc,
            vars: 0,
            points: Vec::new(alloc),
            contexts: IndexSet::new(alloc),
        }
    }

    pub fn add_var(&mut self) -> Result<VarId, PushFault>
        ensures added { OnOk result (self.new ≡ with_var self.old) }
        ensures numbered { IfOk result (λ id. id ≡ self.old.vars) }
        ensures full { IsErrOf result PushFault.Full ↔ (self.old.vars ≡ 2 ^ 32 - 1) }
        ensures refused { OnErr result (self.new ≡ self.old) }
    {
        let number = self.vars;
        if number == u32::MAX {
            return Err(PushFault::Full);
        }
        self.vars = number + 1;
        Ok(VarId::new(number))
    }

    /// A new point, with no edge into it yet.
    pub fn add_point(&mut self, target: Option<VarId>, root: bool) -> Result<PointId, PushFault>
        requires { IsThere target self.old.vars }
        ensures added { OnOk result (self.new ≡ with_point target root self.old) }
        ensures numbered { IfOk result (λ id. id ≡ length self.old.points) }
        ensures full { IsErrOf result PushFault.Full ↔ (length self.old.points ≡ 2 ^ 32 - 1) }
        ensures refused { OnErr result (self.new ≡ self.old) }
    {
        let number = self.points.len() as u32;
        if number == u32::MAX {
            return Err(PushFault::Full);
        }
        let point = Point::new(self.alloc, target, root);
        match self.points.push(point) {
            Ok(()) => Ok(PointId::new(number)),
            Err(_) => Err(PushFault::Memory),
        }
    }

    /// The edges into a point, in the order in which they were added. There are none into an unknown point. It takes one step, and is the only call that gives edges.
    pub fn into<L: Ledger>(&self, point: PointId, steps: &mut Steps<L>) -> &[Edge]
        ensures cost { steps.new ≡ steps.old + 1 }
        ensures edges { result.now ≡ into_of (slice_get self.now.points point) }
        ensures valid { IsValid self.now }
    {
        steps.tick();
        match self.points.get(point.number() as usize) {
            Some(row) => row.into(),
            None => &[],
        }
    }

    /// The variable that a point's facts are about.
    pub fn target(&self, point: PointId) -> Option<VarId>
        ensures told { result ≡ target_of (slice_get self.now.points point) }
        ensures valid { IsValid self.now }
    {
        match self.points.get(point.number() as usize) {
            Some(row) => row.target(),
            None => None,
        }
    }

    /// Whether walks start at a point. No walk starts at an unknown one.
    pub fn root(&self, point: PointId) -> bool
        ensures { result ≡ root_of (slice_get self.now.points point) }
    {
        match self.points.get(point.number() as usize) {
            Some(row) => row.root(),
            None => false,
        }
    }

    pub fn context(&self, id: ContextId) -> Option<Context>
        ensures { result ≡ slice_get self.now.contexts id }
    {
        self.contexts.get_index(id.number() as usize).copied()
    }

    /// The id of a context. One that is there already keeps its id, and takes no memory.
    pub fn add_context(
        &mut self,
        parent: Option<ContextId>,
        call: Option<PointId>,
        fun: Option<FunId>,
    ) -> Result<ContextId, PushFault>
        requires parent { IsThere parent (length self.old.contexts) }
        requires call { IsThere call (length self.old.points) }
        ensures numbered { IfOk result (λ id. slice_get self.new.contexts id ≡ Some (record { parent = parent; call = call; fun = fun })) }
        ensures known { HasContext self.old (record { parent = parent; call = call; fun = fun }) → IsOk result × (self.new ≡ self.old) }
        ensures fresh { (HasContext self.old (record { parent = parent; call = call; fun = fun }) → ⊥) →
            OnOk result (self.new ≡ with_context (record { parent = parent; call = call; fun = fun }) self.old) }
        ensures full { IsErrOf result PushFault.Full ↔
            ((HasContext self.old (record { parent = parent; call = call; fun = fun }) → ⊥) × (length self.old.contexts ≡ 2 ^ 32 - 1)) }
        ensures few { length self.old.contexts ≤ 2 ^ 32 - 1 }
        ensures refused { OnErr result (self.new ≡ self.old) }
    {
        let context = Context { parent, call, fun };
        match self.find_context(&context) {
            Some(id) => Ok(id),
            None => self.push_context(&context),
        }
    }

    /// Adds an edge, and answers whether it is new.
    pub fn add_edge(&mut self, edge: Edge) -> Result<bool, AllocError>
        requires from { edge.from < length self.old.points }
        requires to { edge.to < length self.old.points }
        requires asks { IsAskThere edge.asks self.old.vars }
        ensures fresh { result ≡ Ok true → (HasEdge self.old edge → ⊥) × (self.new ≡ with_edge edge self.old) }
        ensures known { result ≡ Ok false → HasEdge self.old edge × (self.new ≡ self.old) }
        ensures refused { OnErr result (self.new ≡ self.old) }
    {
        let row = &mut self.points[edge.to.number() as usize];
        row.add(edge)
    }

    fn find_context(&self, context: &Context) -> Option<ContextId>
        ensures found { IfSome result (λ id. slice_get self.now.contexts id ≡ Some context.now) }
        ensures none { result ≡ None → HasContext self.now context.now → ⊥ }
        ensures few { length self.now.contexts ≤ 2 ^ 32 - 1 }
    {
        match self.contexts.get_index_of(context) {
            Some(place) => Some(ContextId::new(place as u32)),
            None => None,
        }
    }

    // Puts a context at the end that isn't there yet.
    fn push_context(&mut self, context: &Context) -> Result<ContextId, PushFault>
        requires parent { IsThere context.now.parent (length self.old.contexts) }
        requires call { IsThere context.now.call (length self.old.points) }
        requires fresh { HasContext self.old context.now → ⊥ }
        ensures added { OnOk result (self.new ≡ with_context context.now self.old) }
        ensures numbered { IfOk result (λ id. id ≡ length self.old.contexts) }
        ensures full { IsErrOf result PushFault.Full ↔ (length self.old.contexts ≡ 2 ^ 32 - 1) }
        ensures refused { OnErr result (self.new ≡ self.old) }
    {
        let number = self.contexts.len() as u32;
        if number == u32::MAX {
            return Err(PushFault::Full);
        }
        let new = Context {
            parent: context.parent,
            call: context.call,
            fun: context.fun,
        };
        match self.contexts.insert(new) {
            Ok(_) => Ok(ContextId::new(number)),
            Err(_) => Err(PushFault::Memory),
        }
    }
}

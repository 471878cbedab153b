//! Maps from variables to shapes.
ghost use Rattle.std.specs.Cmp.{partial_equiv_from_equiv};
ghost use Rattle.std.specs.Cmp.Lexicographic.{lists_equiv, pointwise};
ghost use Rattle.std.specs.Hash as fed;
ghost use Rattle.std.specs.List.{All, Contains};
ghost use Rattle.std.specs.List.Sorted.{IsNonDecreasingBy};
ghost use Rattle.std.specs.Prelude.{◌≡◌, ◌↔◌, ◌<◌, ◌≤◌, ◌++◌, IsTrue, Some, None, [], IfOk, IfSome};
ghost use Rattle.typegraph.specs.Keys.{binding_eq, binding_equiv, binding_alike};
ghost use Rattle.typegraph.specs.Maps.{look, IsOnce, IsRising, IsJoined, IsPutLast};

use place_ids::{Id, ShapeId, VarId};
use smallvec::SmallVec;
use std::alloc::{AllocError, Global};
use std::hash::{Hash, Hasher};
use std::marker::Model;

/// A variable, and the shape that it has.
#[derive(Clone, Copy, Debug, PartialEq, Eq, Hash)]
pub struct Binding {
    pub var: VarId,
    pub shape: ShapeId,
}

// What the unused room of a short map holds.
impl Default for Binding {
    fn default() -> Binding {
        Binding {
            var: VarId::new(0),
            shape: ShapeId::new(0),
        }
    }
}

/// A map from variables to shapes, as a source set or what a query wants. Contracts see the list of its bindings, which stand in the order of their variables. Up to four of them take no memory.
#[derive(Debug, Drop)]
pub struct GoalMap {
    bindings: SmallVec<Binding, 4>,
}

impl Model for GoalMap {
    ghost use Rattle.std.specs.Prelude.{List};
    ghost use Rattle.typegraph.specs.declared.goals.Binding.{Binding};
    ghost use Rattle.typegraph.specs.Maps.{IsRising};

    ghost Value = { List Binding };

    ghost view = { λ map. map.bindings.items };

    ghost invariant = { λ map. IsRising map.bindings.items };
}

impl PartialEq for GoalMap {
    ghost eq = { pointwise binding_eq };

    ghost laws = { partial_equiv_from_equiv (lists_equiv binding_equiv) };

    fn eq(&self, other: &GoalMap) -> bool {
        self.bindings.as_slice() == other.bindings.as_slice()
    }
}

impl Eq for GoalMap {
    ghost laws = { lists_equiv binding_equiv };
}

impl Hash for GoalMap {
    ghost hash_input = { fed.slice (λ b. fed.u32 b.var ++ fed.u32 b.shape) };

    ghost respects_eq = { (fed.items_Alike binding_alike).fed };

    fn hash<H: Hasher>(&self, state: &mut H) {
        self.bindings.as_slice().hash(state);
    }
}

impl GoalMap {
    /// The map of these bindings. There is none exactly where they give one variable two shapes.
    pub fn from_bindings(alloc: Global, list: &[Binding]) -> Result<Option<GoalMap>, AllocError>
        ensures joined { IfOk result (λ answer. IsJoined [] list.now answer) }
        ensures rising { IfOk result (λ answer. IfSome answer IsRising) }
        ensures itself { IsRising list.now → IfOk result (λ answer. answer ≡ Some list.now) }
    {
        if is_rising(list) {
            let bindings = SmallVec::from_slice(alloc, list)?;
            return Ok(Some(GoalMap { bindings }));
        }
        GoalMap::of(alloc, SmallVec::from_slice(alloc, list)?)
    }

    /// The map of its own bindings and these. There is none exactly where they give one variable two shapes.
    pub fn merge(&self, list: &[Binding]) -> Result<Option<GoalMap>, AllocError>
        ensures joined { IfOk result (λ answer. IsJoined self.now list.now answer) }
        ensures rising { IfOk result (λ answer. IfSome answer IsRising) }
    {
        let alloc = *self.bindings.allocator();
        let mut all = SmallVec::from_slice(alloc, self.items())?;
        all.extend_from_slice(list)?;
        GoalMap::of(alloc, all)
    }

    /// The same map.
    pub fn copy(&self) -> Result<GoalMap, AllocError>
        ensures { IfOk result (λ copied. copied ≡ self.now) }
    {
        let alloc = *self.bindings.allocator();
        let bindings = SmallVec::from_slice(alloc, self.items())?;
        Ok(GoalMap { bindings })
    }

    /// The shape of a variable. It takes no memory.
    pub fn get(&self, var: VarId) -> Option<ShapeId>
        ensures { result ≡ look self.now var }
    {
        let list = self.bindings.as_slice();
        match list.binary_search_by_key(&var.number(), |binding| binding.var.number()) {
            Ok(place) => Some(list[place].shape),
            Err(_) => None,
        }
    }

    /// Its bindings, in the order of their variables.
    pub fn items(&self) -> &[Binding]
        ensures items { result.now ≡ self.now }
        ensures once { IsOnce self.now }
        ensures rising { IsRising self.now }
    {
        self.bindings.as_slice()
    }

    /// Whether both maps give each variable the same shape, which is whether they have the same bindings.
    pub fn same(&self, other: &GoalMap) -> bool
        ensures shapes { IsTrue result ↔ look self.now ≡ look other.now }
        ensures bindings { IsTrue result ↔ self.now ≡ other.now }
    {
        let (one, other) = (self.items(), other.items());
        one == other
    }

    // The map of these bindings, in whatever order. Where they are two lists in order, one after the other, the sort merges them.
    fn of(alloc: Global, mut all: SmallVec<Binding, 16>) -> Result<Option<GoalMap>, AllocError>
        ensures joined { IfOk result (λ answer. IsJoined [] all.items answer) }
        ensures rising { IfOk result (λ answer. IfSome answer IsRising) }
    {
        let sorted = all.as_mut_slice();
        sorted.sort_by_key(alloc, |binding| binding.var.number())?;
        thinned(alloc, all.as_slice())
    }
}

// Whether the variables of the bindings rise.
fn is_rising(list: &[Binding]) -> bool
    ensures { IsTrue result ↔ IsRising list.now }
{
    list.is_sorted_by(|one, next| one.var.number() < next.var.number())
}

// The shape of the last binding, where that is the variable's. No binding has a greater variable.
fn last_shape(list: &[Binding], var: VarId) -> Option<ShapeId>
    requires rising { IsRising list.now }
    requires below { All (λ b. b.var ≤ var) list.now }
    ensures found { IfSome result (λ shape. Contains list.now (record { var = var; shape = shape })) }
    ensures none { result ≡ None → All (λ b. b.var < var) list.now }
{
    match list.last() {
        Some(last) => {
            if last.var == var {
                Some(last.shape)
            } else {
                None
            }
        }
        None => None,
    }
}

// Puts a binding after those whose variables aren't greater. It answers false where its variable has another shape.
fn put_last(bindings: &mut SmallVec<Binding, 4>, binding: Binding) -> Result<bool, AllocError>
    requires rising { IsRising bindings.old.items }
    requires below { All (λ b. b.var ≤ binding.var) bindings.old.items }
    ensures { IfOk result (λ fits. IsPutLast bindings.old.items binding fits bindings.new.items) }
{
    match last_shape(bindings.as_slice(), binding.var) {
        Some(shape) => Ok(shape == binding.shape),
        None => {
            bindings.push(binding)?;
            Ok(true)
        }
    }
}

// The map of bindings whose variables never fall.
fn thinned(alloc: Global, sorted: &[Binding]) -> Result<Option<GoalMap>, AllocError>
    requires { IsNonDecreasingBy (λ b. b.var) sorted.now }
    ensures joined { IfOk result (λ answer. IsJoined [] sorted.now answer) }
    ensures rising { IfOk result (λ answer. IfSome answer IsRising) }
{
    let mut bindings = SmallVec::new(alloc);
    for binding in sorted {
        if !put_last(&mut bindings, *binding)? {
            return Ok(None);
        }
    }
    Ok(Some(GoalMap { bindings }))
}

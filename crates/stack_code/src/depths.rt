//! The search for the depths of code.
ghost use Rattle.std.specs.Prelude.{◌≡◌, ℕ, ◌+◌, ◌-◌, ◌^◌, ◌<◌, ◌≤◌, [], ◌∷◌, ◌++◌, None, Ok, Err, length, map, slice_get, replicate, IfOk, OnOk, MatchOption};
ghost use Rattle.std.specs.List.{All};
ghost use Rattle.std.specs.List.Sorted.{IsPermutation};
ghost use Rattle.stack_code.specs.Depths.{HasDepth};
ghost use Rattle.stack_code.specs.Validity.{HasTwoDepths};
ghost use Rattle.stack_code.specs.RangeTrees.{ranges_of, uncovered, IsBounded};
ghost use Rattle.stack_code.specs.Search.{with_depth, with_depths, ways, handlers, handler_reached, AreDepths};

use crate::range_tree::{RangeTree, tree_of};
use crate::{Code, Op, Range};
use sqlite_items::Items;
use std::alloc::{AllocError, Global};
use std::marker::Model;

/// A place, and the depth that it has.
#[derive(Clone, Copy, Debug, PartialEq, Eq)]
pub struct Reached {
    pub place: u32,
    pub depth: u32,
}

/// Why a search stopped: a place gets two depths, or want of memory.
#[derive(Clone, Copy, Debug, PartialEq, Eq)]
pub enum Stop {
    Differs(u32),
    Memory,
}

impl From<AllocError> for Stop {
    ghost use Rattle.std.specs.Prelude.{◌≡◌};
    ghost use Rattle.stack_code.specs.declared.depths.Stop.TheVariants.{Memory};

    ghost from_gives = { λ _ stop. stop ≡ Memory };

    fn from(_: AllocError) -> Stop {
        Stop::Memory
    }
}

// The depths found so far, and the places that the search has yet to go on from.
#[derive(Drop)]
struct Search {
    depths: Items<Option<u32>>,
    waiting: Items<Reached>,
}

impl Model for Search {
    ghost use Rattle.stack_code.specs.Search.{Found};

    ghost Value = { Found };

    ghost view = { λ s. record { depths = s.depths; waiting = s.waiting } };
}

impl Search {
    // No place has a depth yet.
    fn new(alloc: Global, places: usize) -> Result<Search, AllocError>
        ensures { IfOk result (λ search. search ≡ record { depths = replicate places None; waiting = [] }) }
    {
        let depths = vec![in alloc; None; places]?;
        Ok(Search {
            depths: Items::from_vec(depths),
            waiting: Items::new(alloc),
        })
    }

    // The next place to go on from.
    fn next(&mut self) -> Option<Reached>
        ensures { MatchOption result ((self.old.waiting ≡ []) × (self.new ≡ self.old)) (λ last. (self.new.depths ≡ self.old.depths) × (self.old.waiting ≡ self.new.waiting ++ last ∷ [])) }
    {
        self.waiting.pop()
    }

    // Gives a place a depth.
    fn give(&mut self, reached: Reached) -> Result<(), Stop>
        ensures given { OnOk result (with_depth reached self.old ≡ Ok self.new) }
        ensures differs { (place : ℕ) → result ≡ Err (Stop.Differs place) → with_depth reached self.old ≡ Err place }
    {
        let place = reached.place as usize;
        match self.depths.get(place) {
            None => Ok(()),
            Some(None) => {
                self.waiting.push(reached)?;
                self.depths.set(place, Some(reached.depth));
                Ok(())
            }
            Some(Some(depth)) => {
                if *depth == reached.depth {
                    Ok(())
                } else {
                    Err(Stop::Differs(reached.place))
                }
            }
        }
    }

    // Gives the depths after an instruction to where it leads.
    fn follow_op(&mut self, op: &Op, from: Reached) -> Result<(), Stop>
        requires place { from.place < 2 ^ 32 - 1 }
        requires depth { from.depth < 2 ^ 32 - 1 }
        ensures given { OnOk result (with_depths (ways op.now from.place from.depth) self.old ≡ Ok self.new) }
        ensures differs { (place : ℕ) → result ≡ Err (Stop.Differs place) → with_depths (ways op.now from.place from.depth) self.old ≡ Err place }
    {
        let effect = op.effect();
        if effect.needs > from.depth as usize {
            return Ok(());
        }
        if op.falls() {
            self.give(Reached {
                place: from.place + 1,
                depth: (from.depth as usize - effect.takes + effect.pushes) as u32,
            })?;
        }
        match op.goal() {
            Some(place) => self.give(Reached {
                place,
                depth: from.depth - op.taken_at_goal(),
            }),
            None => Ok(()),
        }
    }

    // Gives the handlers of the ranges that cover a place their depths, and takes those ranges out of the tree: their handlers want no depth again.
    fn follow_ranges(
        &mut self,
        alloc: Global,
        ranges: &mut RangeTree,
        place: u32,
    ) -> Result<(), Stop>
        requires { IsBounded ranges.old }
        ensures given { OnOk result (with_depths (handlers (ranges_of ranges.old) place) self.old ≡ Ok self.new) }
        ensures left { OnOk result (ranges_of ranges.new ≡ uncovered (ranges_of ranges.old) place) }
        ensures bounded { OnOk result (IsBounded ranges.new) }
        ensures differs { (at : ℕ) → result ≡ Err (Stop.Differs at) → with_depths (handlers (ranges_of ranges.old) place) self.old ≡ Err at }
    {
        let mut taken = Vec::new(alloc);
        ranges.take(place, &mut taken)?;
        self.give_handlers(taken.as_slice())
    }

    // Gives the handlers of ranges their depths.
    fn give_handlers(&mut self, ranges: &[Range]) -> Result<(), Stop>
        ensures given { OnOk result (with_depths (map handler_reached ranges.now) self.old ≡ Ok self.new) }
        ensures differs { (at : ℕ) → result ≡ Err (Stop.Differs at) → with_depths (map handler_reached ranges.now) self.old ≡ Err at }
    {
        for range in ranges {
            self.give(Reached {
                place: range.goal,
                depth: range.depth,
            })?;
        }
        Ok(())
    }
}

// The ranges in a tree, by their first places.
fn tree_by_first(alloc: Global, ranges: &[Range]) -> Result<RangeTree, AllocError>
    ensures same { IfOk result (λ tree. IsPermutation ranges.now (ranges_of tree)) }
    ensures bounded { IfOk result (λ tree. IsBounded tree) }
{
    let mut sorted = Vec::from_slice(alloc, ranges)?;
    sorted.sort_by_key(|range| range.first)?;
    tree_of(alloc, sorted.as_slice())
}

/// The depth of each place that has one.
pub fn depths_of(alloc: Global, code: &Code) -> Result<Items<Option<u32>>, Stop>
    requires short { length code.now.ops < 2 ^ 32 - 1 }
    requires low { All (λ range. length code.now.ops + range.depth < 2 ^ 32 - 1) code.now.ranges }
    ensures depths { IfOk result (λ depths. AreDepths code.now depths) }
    ensures differs { (place : ℕ) → result ≡ Err (Stop.Differs place) → HasTwoDepths code.now place }
{
    let mut ranges = tree_by_first(alloc, code.ranges.as_slice())?;
    let mut search = Search::new(alloc, code.ops.len())?;
    search.give(Reached { place: 0, depth: 0 })?;
    while let Some(reached) = search.next() {
        search.follow_op(&code.ops.as_slice()[reached.place as usize], reached)?;
        search.follow_ranges(alloc, &mut ranges, reached.place)?;
    }
    let Search { depths, .. } = search;
    Ok(depths)
}

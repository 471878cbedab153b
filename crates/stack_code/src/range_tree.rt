//! Ranges that are asked for by place.
ghost use Rattle.std.specs.Prelude.{◌≡◌, ◌<◌, ◌≤◌, ◌++◌, length, IfOk, OnOk};
ghost use Rattle.std.specs.List.{All};
ghost use Rattle.stack_code.specs.RangeTrees.{LiesBetween, ranges_of, covering, uncovered, IsBounded};

use crate::Range;
use std::alloc::{AllocError, Global};

/// Ranges in order. A branch has its first place and the place after its last, and the two halves of the ranges between them.
#[derive(Drop)]
pub enum RangeTree {
    Empty,
    Leaf(Range),
    Branch(u32, u32, Box<RangeTree>, Box<RangeTree>),
}

impl RangeTree {
    /// Takes out the ranges that cover a place, in order.
    pub fn take(&mut self, place: u32, taken: &mut Vec<Range>) -> Result<(), AllocError>
        requires { IsBounded self.old }
        ensures taken { OnOk result (taken.new.items ≡ taken.old.items ++ covering (ranges_of self.old) place) }
        ensures left { OnOk result (ranges_of self.new ≡ uncovered (ranges_of self.old) place) }
        ensures bounded { OnOk result (IsBounded self.new) }
    {
        match self {
            RangeTree::Empty => Ok(()),
            RangeTree::Leaf(range) => {
                let range = *range;
                if range.covers(place) {
                    taken.push(range)?;
                    *self = RangeTree::Empty;
                }
                Ok(())
            }
            RangeTree::Branch(first, past, left, right) => {
                if *first <= place && place < *past {
                    left.take(place, taken)?;
                    right.take(place, taken)?;
                    (*first, *past) = joined(left.bounds(), right.bounds());
                }
                Ok(())
            }
        }
    }

    // The places between which its ranges lie.
    fn bounds(&self) -> (u32, u32)
        requires { IsBounded self.now }
        ensures { All (LiesBetween result.0 result.1) (ranges_of self.now) }
    {
        match self {
            RangeTree::Empty => (u32::MAX, 0),
            RangeTree::Leaf(range) => (range.first, range.past),
            RangeTree::Branch(first, past, _, _) => (*first, *past),
        }
    }
}

// The places between which all lies that lies between the one or the other.
fn joined(one: (u32, u32), other: (u32, u32)) -> (u32, u32)
    ensures first { (result.0 ≤ one.0) × (result.0 ≤ other.0) }
    ensures past { (one.1 ≤ result.1) × (other.1 ≤ result.1) }
{
    (one.0.min(other.0), one.1.max(other.1))
}

/// The tree of ranges.
pub fn tree_of(alloc: Global, ranges: &[Range]) -> Result<RangeTree, AllocError>
    ensures same { IfOk result (λ tree. ranges_of tree ≡ ranges.now) }
    ensures bounded { IfOk result (λ tree. IsBounded tree) }
{
    match ranges {
        [] => Ok(RangeTree::Empty),
        [range] => Ok(RangeTree::Leaf(*range)),
        _ => {
            let (first, past) = bounds(ranges);
            let middle = ranges.len() / 2;
            let left = tree_of(alloc, &ranges[..middle])?;
            let right = tree_of(alloc, &ranges[middle..])?;
            let left = Box::new(alloc, left)?;
            let right = Box::new(alloc, right)?;
            Ok(RangeTree::Branch(first, past, left, right))
        }
    }
}

// The places between which ranges lie.
fn bounds(ranges: &[Range]) -> (u32, u32)
    ensures { All (LiesBetween result.0 result.1) ranges.now }
{
    let mut first = u32::MAX;
    let mut past = 0;
    for range in ranges {
        first = first.min(range.first);
        past = past.max(range.past);
    }
    (first, past)
}

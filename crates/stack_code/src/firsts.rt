//! The first place that breaks a rule.
ghost use Rattle.std.specs.Prelude.{◌≡◌, ℕ, ◌^◌, ◌-◌, ◌<◌, ◌≤◌, false, Some, None, length, IsTrue, IfSome};
ghost use Rattle.stack_code.specs.Effects.{effect_of, goal_of};
ghost use Rattle.stack_code.specs.Validity.{IsRangeOf, IsFirst, JumpsStay, JumpsOut, SlotsSuffice, Underflows, RangesLieIn, LiesOut};
ghost use Rattle.stack_code.specs.Search.{AreDepths};

use crate::{Code, Op, Range};

fn leaves(op: &Op, places: usize) -> bool
    ensures yes { IsTrue result → (goal : ℕ) × (goal_of op.now ≡ Some goal) × (places ≤ goal) }
    ensures no { result ≡ false → (goal : ℕ) → goal_of op.now ≡ Some goal → goal < places }
{
    match op.goal() {
        Some(goal) => goal as usize >= places,
        None => false,
    }
}

/// The first instruction that jumps out of the code.
pub fn jump_out(code: &Code) -> Option<u32>
    requires { length code.now.ops < 2 ^ 32 - 1 }
    ensures first { IfSome result (IsFirst (JumpsOut code.now)) }
    ensures none { result ≡ None → JumpsStay code.now }
{
    let ops = code.ops.as_slice();
    for (place, op) in ops.iter().enumerate() {
        if leaves(op, ops.len()) {
            return Some(place as u32);
        }
    }
    None
}

fn finds_few(op: &Op, depth: Option<u32>) -> bool
    ensures yes { IsTrue result → (slots : ℕ) × (depth ≡ Some slots) × (slots < (effect_of op.now).needs) }
    ensures no { result ≡ false → (slots : ℕ) → depth ≡ Some slots → (effect_of op.now).needs ≤ slots }
{
    match depth {
        Some(depth) => op.effect().needs > depth as usize,
        None => false,
    }
}

/// The first instruction that finds too few slots.
pub fn underflow(code: &Code, depths: &[Option<u32>]) -> Option<u32>
    requires short { length code.now.ops < 2 ^ 32 - 1 }
    requires depths { AreDepths code.now depths.now }
    ensures first { IfSome result (IsFirst (Underflows code.now)) }
    ensures none { result ≡ None → SlotsSuffice code.now }
{
    let ops = code.ops.as_slice();
    for (place, op) in ops.iter().enumerate() {
        if finds_few(op, depths[place]) {
            return Some(place as u32);
        }
    }
    None
}

fn lies_out(range: &Range, places: usize) -> bool
    ensures yes { IsTrue result → IsRangeOf places range.now → ⊥ }
    ensures no { result ≡ false → IsRangeOf places range.now }
{
    range.first > range.past || range.past as usize > places || range.goal as usize >= places
}

/// The first range that isn't within the code.
pub fn range_out(code: &Code) -> Option<u32>
    requires { length code.now.ranges < 2 ^ 32 - 1 }
    ensures first { IfSome result (IsFirst (LiesOut code.now)) }
    ensures none { result ≡ None → RangesLieIn code.now }
{
    let places = code.ops.len();
    for (number, range) in code.ranges.as_slice().iter().enumerate() {
        if lies_out(range, places) {
            return Some(number as u32);
        }
    }
    None
}

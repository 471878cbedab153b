//! Code that was found valid.
ghost use Rattle.std.specs.Prelude.{◌≡◌, ℕ, ◌+◌, ◌-◌, ◌^◌, ◌<◌, ◌↔◌, Some, Err, length, IfOk};
ghost use Rattle.std.specs.List.{All};
ghost use Rattle.stack_code.specs.Depths.{HasDepth};
ghost use Rattle.stack_code.specs.Handlers.{handler_at};
ghost use Rattle.stack_code.specs.Validity.{IsValid, IsFirst, JumpsStay, JumpsOut, DepthsAgree, HasTwoDepths, SlotsSuffice, Underflows, LiesOut};

use crate::depths::{Stop, depths_of};
use crate::firsts::{jump_out, range_out, underflow};
use crate::handlers::handlers_of;
use crate::{Code, CodeFault, Range};
use sqlite_items::Items;
use std::alloc::Global;
use std::marker::Model;

/// Valid code, with the depths and the handlers of its places. Contracts see the code.
#[derive(Debug, Drop)]
pub struct ValidCode {
    code: Code,
    depths: Items<Option<u32>>,
    handlers: Items<Option<Range>>,
}

impl Model for ValidCode {
    ghost use Rattle.stack_code.specs.declared.code.Code.{Code};
    ghost use Rattle.stack_code.specs.Validity.{IsValid};
    ghost use Rattle.stack_code.specs.Search.{AreDepths};
    ghost use Rattle.stack_code.specs.Handlers.{AreHandlers};

    ghost Value = { Code };

    ghost view = { λ v. v.code };

    ghost invariant = { λ v. IsValid v.code × AreDepths v.code v.depths × AreHandlers v.code v.handlers };
}

impl ValidCode {
    pub fn code(&self) -> &Code
        ensures code { result.now ≡ self.now }
        ensures valid { IsValid self.now }
    {
        &self.code
    }

    /// How many slots the stack has at a place. A place that the code can't come to, and one past the end, has no depth.
    pub fn depth_at(&self, place: u32) -> Option<u32>
        ensures { (depth : ℕ) → result ≡ Some depth ↔ HasDepth self.now place depth }
    {
        match self.depths.get(place as usize) {
            Some(depth) => *depth,
            None => None,
        }
    }

    /// The innermost range that covers a place: where an exception that is raised there goes on, if it stays in this code.
    pub fn handler_at(&self, place: u32) -> Option<Range>
        ensures { result ≡ handler_at self.now.ranges place }
    {
        match self.handlers.get(place as usize) {
            Some(handler) => *handler,
            None => None,
        }
    }
}

/// Finds whether code is valid: no jump leaves it, no place gets two depths, no instruction that it may come to finds too few slots, and each range lies in it with its handler. Code with a fault is dropped.
pub fn validate(alloc: Global, code: Code) -> Result<ValidCode, CodeFault>
    requires lines { length code.lines ≡ length code.ops }
    requires ranges { length code.ranges < 2 ^ 32 - 1 }
    requires short { length code.ops < 2 ^ 32 - 1 }
    requires low { All (λ range. length code.ops + range.depth < 2 ^ 32 - 1) code.ranges }
    ensures same { IfOk result (λ valid. valid ≡ code) }
    ensures valid { IfOk result (λ _. IsValid code) }

    // The first rule that is broken tells the fault.
    ensures jump_out { (place : ℕ) → result ≡ Err (CodeFault.JumpOut place) → IsFirst (JumpsOut code) place }
    ensures depth_differs { (place : ℕ) → result ≡ Err (CodeFault.DepthDiffers place) → JumpsStay code × HasTwoDepths code place }
    ensures underflow { (place : ℕ) → result ≡ Err (CodeFault.Underflow place) → JumpsStay code × DepthsAgree code × IsFirst (Underflows code) place }
    ensures range_out { (number : ℕ) → result ≡ Err (CodeFault.RangeOut number) → JumpsStay code × DepthsAgree code × SlotsSuffice code × IsFirst (LiesOut code) number }
{
    if let Some(place) = jump_out(&code) {
        return Err(CodeFault::JumpOut(place));
    }
    let depths = match depths_of(alloc, &code) {
        Ok(depths) => depths,
        Err(Stop::Differs(place)) => return Err(CodeFault::DepthDiffers(place)),
        Err(Stop::Memory) => return Err(CodeFault::Memory),
    };
    if let Some(place) = underflow(&code, depths.as_slice()) {
        return Err(CodeFault::Underflow(place));
    }
    if let Some(number) = range_out(&code) {
        return Err(CodeFault::RangeOut(number));
    }
    let handlers = match handlers_of(alloc, &code) {
        Ok(handlers) => Items::from_vec(handlers),
        Err(_) => return Err(CodeFault::Memory),
    };
    Ok(ValidCode {
        code,
        depths,
        handlers,
    })
}

//! How code is cut into blocks.
ghost use Rattle.std.specs.Prelude.{◌≡◌, ℕ, ◌+◌, ◌-◌, ◌<◌, ◌^◌, ◌||◌, true, false, nat_eq, length, get_or, IfOk};
ghost use Rattle.stack_code.specs.Blocks.{blocks_of, ends_run, leads, entries, has_place};

use crate::runs::Blocks;
use crate::{Op, ValidCode};
use sqlite_items::Items;
use std::alloc::{AllocError, Global};

/// The blocks of code. What raises to a handler of this code leaves its block there and enters another; other raises and calls do neither. Code of 2³² instructions and more is taken for want of memory.
pub fn blocks(alloc: Global, code: &ValidCode) -> Result<Blocks, AllocError>
    ensures { IfOk result (λ runs. runs ≡ blocks_of code.now) }
{
    if code.code().ops.len() > u32::MAX as usize {
        return Err(AllocError);
    }
    let entered = entered_places(alloc, code)?;
    let ranges = cut(alloc, code, entered.as_slice())?;
    Ok(Blocks { ranges })
}

// The runs, where it is known which places are entered other than from the place before.
fn cut(alloc: Global, code: &ValidCode, entered: &[bool]) -> Result<Items<(u32, u32)>, AllocError>
    requires few { length code.now.ops < 2 ^ 32 }
    requires all { length entered.now ≡ length code.now.ops }
    requires told { (p : ℕ) → p < length code.now.ops → get_or entered.now p false ≡ has_place (entries code.now.ranges 0 code.now.ops) p }
    ensures { IfOk result (λ runs. runs ≡ blocks_of code.now) }
{
    let mut runs = Items::new(alloc);
    let mut first = 0;
    for (place, op) in code.code().ops.as_slice().iter().enumerate() {
        let next = place as u32 + 1;
        if ends_run_at(code, op, place as u32) || is_entered(entered, place + 1) {
            runs.push((first, next))?;
            first = next;
        }
    }
    Ok(runs)
}

// Whether a run can't go on past an instruction: it may lead elsewhere than to the next place, or nowhere.
fn ends_run_at(code: &ValidCode, op: &Op, place: u32) -> bool
    requires { place < 2 ^ 32 - 1 }
    ensures { result ≡ ends_run code.now.ranges place op.now }
{
    if op.may_raise() && code.handler_at(place).is_some() {
        return true;
    }
    match op.goal() {
        Some(goal) => goal != place + 1,
        None => !op.falls(),
    }
}

// The end of the code counts as entered.
fn is_entered(entered: &[bool], place: usize) -> bool
    ensures { result ≡ get_or entered.now place true }
{
    match entered.get(place) {
        Some(entered) => *entered,
        None => true,
    }
}

// For each place whether it is entered other than from the place before.
fn entered_places(alloc: Global, code: &ValidCode) -> Result<Vec<bool>, AllocError>
    requires { length code.now.ops < 2 ^ 32 }
    ensures all { IfOk result (λ entered. length entered.items ≡ length code.now.ops) }
    ensures told { IfOk result (λ entered. (p : ℕ) → p < length code.now.ops → get_or entered.items p false ≡ has_place (entries code.now.ranges 0 code.now.ops) p) }
{
    let ops = code.code().ops.as_slice();
    let mut entered = vec![in alloc; false; ops.len()]?;
    for (place, op) in ops.iter().enumerate() {
        mark_leads(entered.as_mut_slice(), code, place as u32, op);
    }
    Ok(entered)
}

// Marks where an instruction leads.
fn mark_leads(entered: &mut [bool], code: &ValidCode, place: u32, op: &Op)
    requires { place < 2 ^ 32 - 1 }
    ensures { (p : ℕ) → p < length entered.old → get_or entered.new p false ≡ (get_or entered.old p false || has_place (leads code.now.ranges place op.now) p) }
{
    if let Some(goal) = op.goal() {
        if goal != place + 1 {
            mark(entered, goal);
        }
    }
    if op.may_raise() {
        if let Some(range) = code.handler_at(place) {
            mark(entered, range.goal);
        }
    }
}

fn mark(entered: &mut [bool], place: u32)
    ensures { (p : ℕ) → p < length entered.old → get_or entered.new p false ≡ (get_or entered.old p false || nat_eq p place) }
{
    let place = place as usize;
    if place < entered.len() {
        entered[place] = true;
    }
}

//! The handler of each place.
ghost use Rattle.std.specs.Prelude.{◌≡◌, ℕ, ◌+◌, ◌-◌, ◌^◌, ◌<◌, ◌≤◌, None, Some, length, get_or, unwrap_or, IfOk, if◌then◌else◌};
ghost use Rattle.std.specs.List.Sorted.{IsPermutation, IsNonDecreasingBy, IsStableByKey};
ghost use Rattle.std.specs.Ordering.{nat_cmp};
ghost use Rattle.stack_code.specs.Handlers.{covers, AreHandlers};
ghost use Rattle.stack_code.specs.Painting.{length_of, SkipsPainted};
ghost use Rattle.stack_code.specs.Validity.{RangesLieIn};

use crate::{Code, Range};
use std::alloc::{AllocError, Global};

impl Range {
    /// Whether a place is one of the range.
    pub(crate) fn covers(&self, place: u32) -> bool
        ensures { result ≡ covers self.now place }
    {
        self.first <= place && place < self.past
    }

    // How many places it has.
    fn length(&self) -> u32
        ensures { result ≡ length_of self.now }
    {
        self.past.saturating_sub(self.first)
    }
}

/// For each place of code the innermost range that covers it.
pub fn handlers_of(alloc: Global, code: &Code) -> Result<Vec<Option<Range>>, AllocError>
    requires few { length code.now.ops < 2 ^ 32 }
    requires within { RangesLieIn code.now }
    ensures { IfOk result (λ handlers. AreHandlers code.now handlers.items) }
{
    let ranges = from_the_shortest(alloc, code.ranges.as_slice())?;
    let mut handlers = vec![in alloc; None; code.ops.len()]?;
    let mut next = places_behind(alloc, code.ops.len())?;
    for range in ranges.as_slice() {
        paint(handlers.as_mut_slice(), next.as_mut_slice(), *range);
    }
    Ok(handlers)
}

// The ranges by their lengths, those of one length as they stand.
fn from_the_shortest(alloc: Global, ranges: &[Range]) -> Result<Vec<Range>, AllocError>
    ensures same { IfOk result (λ sorted. IsPermutation ranges.now sorted.items) }
    ensures rising { IfOk result (λ sorted. IsNonDecreasingBy length_of sorted.items) }
    ensures stable { IfOk result (λ sorted. IsStableByKey length_of nat_cmp ranges.now sorted.items) }
{
    let mut sorted = Vec::from_slice(alloc, ranges)?;
    sorted.sort_by_key(|range| range.length())?;
    Ok(sorted)
}

// For each place the one behind it.
fn places_behind(alloc: Global, places: usize) -> Result<Vec<u32>, AllocError>
    requires { places < 2 ^ 32 }
    ensures all { IfOk result (λ next. length next.items ≡ places) }
    ensures behind { IfOk result (λ next. (p : ℕ) → p < places → get_or next.items p 0 ≡ p + 1) }
{
    let mut next = Vec::with_capacity(alloc, places)?;
    for place in 0..places {
        next.push(place as u32 + 1)?;
    }
    Ok(next)
}

// Gives the range those of its places that have none. Between a place and its next all have one, so what is painted is left out.
fn paint(handlers: &mut [Option<Range>], next: &mut [u32], range: Range)
    requires within { range.past ≤ length handlers.old }
    requires all { length next.old ≡ length handlers.old }
    requires skips { SkipsPainted handlers.old next.old }
    ensures painted { (p : ℕ) → p < length handlers.old → get_or handlers.new p None ≡ (if covers range p then Some (unwrap_or (get_or handlers.old p None) range) else get_or handlers.old p None) }
    ensures skips { SkipsPainted handlers.new next.new }
{
    let mut place = range.first;
    while place < range.past {
        let at = place as usize;
        handlers[at] = Some(handlers[at].unwrap_or(range));
        place = next[at];
        next[at] = place.max(range.past);
    }
}

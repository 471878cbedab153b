//! Truth values by place: what a set does with them.
ghost use Rattle.std.specs.Prelude.{◌≡◌, false, length, replicate, IfOk};
ghost use Rattle.std.specs.Bool.{MatchBool};
ghost use Rattle.shape_sets.specs.Planes.{holds, IsUnion, IsWithin, HasMore};

use std::alloc::{AllocError, Global};

/// Values that are all false.
pub fn no_shapes(alloc: Global, width: u32) -> Result<Vec<bool>, AllocError>
    ensures { IfOk result (λ held. held.items ≡ replicate width false) }
{
    vec![in alloc; false; width as usize]
}

/// Whether the value at a place is true. Past the end it is not.
pub fn holds_at(held: &[bool], place: usize) -> bool
    ensures { result ≡ holds held.now place }
{
    held.get(place).copied().unwrap_or(false)
}

/// Makes each value true that is true in `more`.
pub fn add_all(held: &mut [bool], more: &[bool])
    requires { length more.now ≡ length held.old }
    ensures { IsUnion held.old more.now held.new }
{
    for (place, also) in more.iter().enumerate() {
        held[place] = held[place] || *also;
    }
}

/// Whether some value is true that is not true in `others`.
pub fn has_more(held: &[bool], others: &[bool]) -> bool
    ensures { MatchBool result (HasMore held.now others.now) (IsWithin held.now others.now) }
{
    for (place, value) in held.iter().enumerate() {
        if *value && !holds_at(others, place) {
            return true;
        }
    }
    false
}

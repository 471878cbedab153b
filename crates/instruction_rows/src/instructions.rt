//! What an instruction reads.
ghost use Rattle.std.specs.Prelude.{◌≡◌, ◌∷◌, [], IfOk};
ghost use Rattle.world_rules.specs.Places.{below_top};
ghost use Rattle.world_rules.specs.Readings.{readings, one_reading, own, slot_below, top_read, two_read, constant};

use crate::names::name_read;
use program_tables::Program;
use sqlite_items::Items;
use stack_code::{ConstKind, Op};
use std::alloc::{AllocError, Global};
use world_rules::{OwnedSeat, Seat, SeatOwner, SeatReading, Thread, Transfer, Yield};

/// The readings of an instruction, where the stack has a depth, in a thread. One without a rule has none.
pub fn readings(
    alloc: Global,
    program: &Program,
    thread: Thread,
    depth: u32,
    op: &Op,
) -> Result<Items<SeatReading>, AllocError>
    ensures { IfOk result (λ answer. answer ≡ readings program.now.program program.now.scopes thread depth op.now) }
{
    match op {
        Op::Const(kind) => one_reading(alloc, &[], Transfer::Makes(constant(*kind))),
        Op::LoadLocal(local) => {
            one_reading(alloc, &[own(Seat::Local(*local))], Transfer::Copies)
        }
        Op::StoreLocal(_) => top_read(alloc, depth, Transfer::Copies),
        Op::ForgetLocal(_) | Op::ForgetName(_) => one_reading(alloc, &[], Transfer::Forgets),
        Op::LoadName(name) => name_read(alloc, program, thread, *name),
        Op::StoreName(name) => top_read(alloc, depth, Transfer::Stores(*name)),
        Op::Pick(below) => one_reading(alloc, &[slot_below(depth, *below)], Transfer::Copies),
        Op::Unary(op) => top_read(alloc, depth, Transfer::Applies(*op)),
        Op::Not => top_read(alloc, depth, Transfer::Negates),
        Op::Binary(op, site) => two_read(alloc, depth, Transfer::Combines(*op, *site)),
        Op::InPlace(op, site) => two_read(alloc, depth, Transfer::Changes(*op, *site)),
        Op::Compare(op) => two_read(alloc, depth, Transfer::Compares(*op)),
        _ => Ok(Items::new(alloc)),
    }
}

/// Seats that are read together, as the only reading.
pub(crate) fn one_reading(
    alloc: Global,
    seats: &[OwnedSeat],
    transfer: Transfer,
) -> Result<Items<SeatReading>, AllocError>
    ensures { IfOk result (λ answer. answer ≡ one_reading seats.now transfer) }
{
    let seats = Items::from_slice(alloc, seats)?;
    let mut readings = Items::new(alloc);
    readings.push(SeatReading { seats, transfer })?;
    Ok(readings)
}

fn top_read(alloc: Global, depth: u32, transfer: Transfer) -> Result<Items<SeatReading>, AllocError>
    ensures { IfOk result (λ answer. answer ≡ top_read depth transfer) }
{
    one_reading(alloc, &[slot_below(depth, 0)], transfer)
}

fn two_read(alloc: Global, depth: u32, transfer: Transfer) -> Result<Items<SeatReading>, AllocError>
    ensures { IfOk result (λ answer. answer ≡ two_read depth transfer) }
{
    one_reading(
        alloc,
        &[slot_below(depth, 1), slot_below(depth, 0)],
        transfer,
    )
}

pub(crate) fn own(seat: Seat) -> OwnedSeat
    ensures { result ≡ own seat }
{
    OwnedSeat {
        owner: SeatOwner::Own,
        seat,
    }
}

// The slot that stands so many below the top.
fn slot_below(depth: u32, below: u32) -> OwnedSeat
    ensures { result ≡ slot_below depth below }
{
    own(Seat::Slot(below_top(depth, below)))
}

fn below_top(depth: u32, below: u32) -> u32
    ensures { result ≡ below_top depth below }
{
    depth.saturating_sub(below).saturating_sub(1)
}

fn constant(kind: ConstKind) -> Yield
    ensures { result ≡ constant kind }
{
    match kind {
        ConstKind::NoneValue => Yield::NoneValue,
        ConstKind::TrueValue => Yield::TrueValue,
        ConstKind::FalseValue => Yield::FalseValue,
        ConstKind::Int => Yield::Int,
        ConstKind::Float => Yield::Float,
        ConstKind::Str => Yield::Str,
        ConstKind::Bytes => Yield::Bytes,
    }
}

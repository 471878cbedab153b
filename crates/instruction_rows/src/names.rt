//! What a read of a name means (language reference, "Resolution of names").
ghost use Rattle.std.specs.Prelude.{◌≡◌, IfOk};
ghost use Rattle.scope_rules.specs.NameLists.{text_of};
ghost use Rattle.builtin_stubs.specs.Natives.{native_head};
ghost use Rattle.world_rules.specs.Readings.{name_read, global_read, builtin, unknown, native_yield};

use crate::instructions::{one_reading, own};
use abstract_shapes::Place;
use builtin_stubs::{Builtins, NativeId, NativeSort};
use place_ids::{Id, NameId, Names};
use program_tables::Program;
use sqlite_items::Items;
use std::alloc::{AllocError, Global};
use world_rules::{Seat, SeatReading, Thread, Transfer, Yield};

/// A name that the module binds is a global, and any other one of Python's own or an unknown one.
pub(crate) fn name_read(
    alloc: Global,
    program: &Program,
    thread: Thread,
    name: NameId,
) -> Result<Items<SeatReading>, AllocError>
    ensures { IfOk result (λ answer. answer ≡ name_read program.now.program program.now.scopes thread name) }
{
    if program.scopes().bound(name) {
        return global_read(alloc, thread, name);
    }
    let text = text_of(program.names(), name);
    one_reading(alloc, &[], builtin(name, text))
}

// A global is a variable in the module's thread. In any other all that it ever gets is read.
fn global_read(
    alloc: Global,
    thread: Thread,
    name: NameId,
) -> Result<Items<SeatReading>, AllocError>
    ensures { IfOk result (λ answer. answer ≡ global_read thread name) }
{
    match thread {
        Thread::OfModule => one_reading(alloc, &[own(Seat::Global(name))], Transfer::Copies),
        Thread::OfFunction => {
            one_reading(
                alloc,
                &[],
                Transfer::Makes(Yield::Each(Place::Global(name))),
            )
        }
    }
}

/// The text of a name, or none for an unknown number.
pub(crate) fn text_of(names: &Names, name: NameId) -> &str
    ensures { result.now ≡ text_of names.now name }
{
    match names.text(name) {
        Some(text) => text,
        None => "",
    }
}

fn builtin(name: NameId, text: &str) -> Transfer
    ensures { result ≡ builtin name text.now }
{
    match Builtins.fun(text) {
        Some(number) => {
            if text == "base_init" {
                unknown(name, text)
            } else {
                Transfer::Makes(native_yield(number))
            }
        }
        None => unknown(name, text),
    }
}

fn unknown(name: NameId, text: &str) -> Transfer
    ensures { result ≡ unknown name text.now }
{
    if Builtins.is_outside(text) {
        Transfer::Makes(Yield::Ext)
    } else {
        Transfer::Misses(name)
    }
}

// `__name__` and `__file__` are texts.
fn native_yield(number: NativeId) -> Yield
    ensures { result ≡ native_yield number (native_head number) }
{
    match Builtins.row(number) {
        Some(row) => match row.sort {
            NativeSort::Value => Yield::Str,
            NativeSort::Function | NativeSort::Class | NativeSort::Method => Yield::Native(number),
        },
        None => Yield::Ext,
    }
}

//! The code of contexts, and the instructions of points.
ghost use Rattle.std.specs.Prelude.{◌≡◌, slice_get};
ghost use Rattle.std.specs.Option.{option_copied};
ghost use Rattle.world_rules.specs.Places.{code_for, code_of, fun_of, op_at, thread_of};
ghost use Rattle.world_tables.specs.Rows.{contexts_of, the_context, IsKept};
ghost use Rattle.context_code.specs.Threads.{thread_by};

use flow_graph::Context;
use place_ids::{ContextId, FunId};
use program_tables::Program;
use stack_code::{Op, ValidCode};
use world_rules::Thread;
use world_tables::{PointSpot, Tables};

/// The code of a function, or of the module's body.
pub fn code_for(program: &Program, fun: Option<FunId>) -> Option<&ValidCode>
    ensures { option_copied result ≡ code_for program.now.program fun }
{
    match fun {
        Some(fun) => program.fun_code(fun),
        None => Some(program.module_code()),
    }
}

/// The function that a context is of. An unknown context counts as the module's.
pub fn fun_of(tables: &Tables, context: ContextId) -> Option<FunId>
    ensures { result ≡ fun_of (the_context (contexts_of tables.now) context) }
{
    match row_of(tables, context) {
        Some(row) => row.fun,
        None => None,
    }
}

/// The code of a context.
pub fn code_at<'a>(
    tables: &Tables,
    program: &'a Program,
    context: ContextId,
) -> Option<&'a ValidCode>
    ensures { option_copied result ≡ code_of program.now.program (the_context (contexts_of tables.now) context) }
{
    code_for(program, fun_of(tables, context))
}

/// The instruction at a place of a context's code.
pub fn op_at<'a>(tables: &Tables, program: &'a Program, spot: &PointSpot) -> Option<&'a Op>
    ensures { option_copied result ≡ op_at program.now.program (the_context (contexts_of tables.now) spot.now.context) spot.now.place }
{
    match code_at(tables, program, spot.context) {
        Some(code) => code.code().ops.get(spot.place as usize),
        None => None,
    }
}

/// Where the thread of a context starts. A context that is called has the thread of the one that calls it.
pub fn thread_of(tables: &Tables, context: ContextId) -> Thread
    ensures { result ≡ thread_of (the_context (contexts_of tables.now) context) }
{
    match row_of(tables, context) {
        Some(row) => match row.parent {
            Some(parent) => thread_of(tables, parent),
            None => thread_by(row.fun),
        },
        None => Thread::OfModule,
    }
}

// The thread of a context that nothing calls.
fn thread_by(fun: Option<FunId>) -> Thread
    ensures { result ≡ thread_by fun }
{
    match fun {
        Some(_) => Thread::OfFunction,
        None => Thread::OfModule,
    }
}

/// What is told of a context.
pub(crate) fn row_of(tables: &Tables, context: ContextId) -> Option<Context>
    ensures row { result ≡ slice_get tables.now.graph.flow.contexts context }
    ensures kept { IsKept tables.now }
{
    tables.graph().flow().context(context)
}

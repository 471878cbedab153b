//! The world that a program begins with.
ghost use Rattle.std.specs.Prelude.{◌≡◌, ◌+◌, ◌<◌, Err, IfOk, OnOk};
ghost use Rattle.std.specs.List.{Contains};
ghost use Rattle.world_rules.specs.Places.{main};
ghost use Rattle.world_rules.specs.Sources.{Source};
ghost use Rattle.world_tables.specs.Tables.{items_of, AreTables, AreFinished};
ghost use Rattle.world_tables.specs.Rows.{no_rows, tables_of};
ghost use Rattle.context_code.specs.Sources.{IsSourceOf};
ghost use Rattle.abstract_vm.specs.Beginning.{AreFirst, AreTooMany, IsNewWorld, has_module, IsBegun};

use crate::limit::is_too_large;
use crate::{VmFault, World};
use context_graph::finish_context;
use goal_solver::Solver;
use place_ids::ContextId;
use program_tables::Program;
use std::alloc::{AllocError, Global};
use world_tables::Tables;
use world_tables::laws::items_are_counted;

impl World {
    /// The module's context with its edges, and nothing else. Full comes where these are more than 400,000 items. A query of which more states than the budget are reached is given up.
    pub fn new(
        alloc: Global,
        program: &Program,
        library: bool,
        budget: u32,
    ) -> Result<World, VmFault>
        ensures new { (s : Source) → IsSourceOf s program.now → IfOk result (IsNewWorld s) }
        ensures settings { IfOk result (λ w. (w.solver.budget ≡ budget) × (w.library ≡ library)) }
        ensures full { (s : Source) → IsSourceOf s program.now → result ≡ Err VmFault.Full → AreTooMany s }
    {
        let tables = match module_tables(alloc, program) {
            Ok(tables) => tables,
            Err(_) => return Err(VmFault::Memory),
        };
        if is_too_large(&tables) {
            return Err(VmFault::Full);
        }
        Ok(World {
            alloc,
            tables,
            solver: Solver::new(alloc, budget),
            library,
        })
    }
}

// The tables with the module's context, its points and its edges.
fn module_tables(alloc: Global, program: &Program) -> Result<Tables, AllocError>
    ensures begun { (s : Source) → IsSourceOf s program.now → IfOk result (IsBegun s) }
    ensures no_entries { IfOk result (λ tables. tables.joined ≡ no_rows.joined) }
{
    items_are_counted();
    let mut tables = Tables::new(alloc);
    let context = add_module(&mut tables)?;
    finish_context(alloc, &mut tables, program, context)?;
    Ok(tables)
}

// Adds the module's context.
fn add_module(tables: &mut Tables) -> Result<ContextId, AllocError>
    requires nothing { tables.old ≡ no_rows }
    requires tables { (s : Source) → AreTables s (tables_of tables.old) }
    ensures first { IfOk result (λ context. context ≡ 0) }
    ensures module { OnOk result (tables.new ≡ has_module) }
    ensures tables { (s : Source) → OnOk result (AreTables s (tables_of tables.new)) }
{
    match tables.add_context(None, None, None) {
        Ok(context) => Ok(context),
        Err(_) => Err(AllocError),
    }
}

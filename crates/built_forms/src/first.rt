//! The first line at which a module has a form that isn't built.
ghost use Rattle.std.specs.Prelude.{◌≡◌, ◌++◌, [], IfOk, OnOk};
ghost use Rattle.py_tree.specs.View.{module_view, stmts_view};
ghost use Rattle.built_forms.specs.Least.{least as least_of};
ghost use Rattle.built_forms.specs.Unbuilt.{in_body, unbuilt};

use crate::forms::assigned_name;
use crate::known::Known;
use crate::lines::least;
use crate::statements::statement;
use place_ids::{LineNo, Sequence};
use py_tree::{Module, Stmt};
use std::alloc::{AllocError, Global};

/// The least line of a node of the module whose form isn't built, if there is one.
pub fn first_unbuilt(alloc: Global, module: &Module) -> Result<Option<LineNo>, AllocError>
    ensures { IfOk result (λ line. line ≡ least_of (unbuilt (module_view «module».now))) }
{
    let mut lines = Sequence::new(alloc);
    body(alloc, &module.body, &mut lines)?;
    Ok(least(lines.items()))
}

// Puts the lines of the nodes of a module's body at the end whose form isn't built.
#[tactic(auto, using(std::proofs::Common::append_assoc))]
fn body(alloc: Global, stmts: &[Stmt], out: &mut Sequence<LineNo>) -> Result<(), AllocError>
    ensures { OnOk result (out.new ≡ out.old ++ in_body [] (stmts_view stmts.now)) }
{
    let mut known = Known::new(alloc);
    for stmt in stmts {
        statement(&known, stmt, out)?;
        known.insert_option(assigned_name(&stmt.kind))?;
    }
    Ok(())
}

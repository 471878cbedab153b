//! The types of the names of a plain module, statement by statement.
ghost use Rattle.std.specs.Prelude.{◌≡◌, [], IfOk, OnOk};
ghost use Rattle.py_tree.specs.View.{module_view, stmt_view};
ghost use Rattle.built_forms.specs.Unbuilt.{kind_of, unbuilt};
ghost use Rattle.py_infer.specs.Modules.{lines_of};
ghost use Rattle.py_infer.specs.Stubs.{AreRowsOf};
ghost use Rattle.py_infer.specs.Typing.{IsWith, row_of};

use crate::line::line_of;
use crate::types::Types;
use place_ids::Names;
use py_tree::{Module, Stmt};
use std::alloc::{AllocError, Global};

// Gives a name the type that a statement gives it.
fn carry_out(types: &mut Types, names: &Names, stmt: &Stmt) -> Result<(), AllocError>
    ensures { OnOk result (IsWith types.old types.new (row_of names.now types.old (kind_of (stmt_view stmt.now)))) }
{
    match line_of(types, names, &stmt.kind) {
        Some(line) => types.set(line.target, line.plain_type),
        None => Ok(()),
    }
}

/// The types of the names after the last statement of a module that has only forms that are built.
pub fn types_of(alloc: Global, module: &Module) -> Result<Types, AllocError>
    requires { unbuilt (module_view «module».now) ≡ [] }
    ensures { IfOk result (λ types. AreRowsOf (lines_of (module_view «module».now)) types) }
{
    let mut types = Types::new(alloc);
    for stmt in &module.body {
        carry_out(&mut types, &module.names, stmt)?;
    }
    Ok(types)
}

//! The compiler's way over a module.
ghost use Rattle.std.specs.Prelude.{◌≡◌, IfOk};
ghost use Rattle.py_tree.specs.View.{module_view};
ghost use Rattle.scope_rules.specs.Scoped.{scoped};
ghost use Rattle.block_compile.specs.Compiled.{compiled};

use crate::functions::module_code;
use crate::tables::{Tables, tables_of};
use program_tables::Program;
use py_scope::Scopes;
use py_tree::Module;
use std::alloc::{AllocError, Global};

/// The program of a module, whose scopes these are; its names and its scopes are the module's, moved. It can only run out of memory: so is taken code of 2³² instructions and more, or as many ranges, functions, parameters of a function, or slots of a stack.
pub fn compile(alloc: Global, module: Module, scopes: Scopes) -> Result<Program, AllocError>
    requires { scopes ≡ scoped (module_view «module») }
    ensures { IfOk result (λ program. program ≡ compiled (module_view «module») scopes) }
{
    let Module { body, mut names } = module;
    let Ok(error) = names.intern("AssertionError") else {
        return Err(AllocError);
    };
    let tables = tables_of(alloc, &scopes, error, body.as_slice())?;
    let code = module_code(alloc, &scopes, error, body.as_slice())?;
    let Tables {
        codes,
        funs,
        classes,
        class_names,
    } = tables;
    Ok(Program::new(code, names, scopes, codes, funs, classes, class_names))
}

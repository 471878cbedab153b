//! A compiled module.
ghost use Rattle.std.specs.Prelude.{◌≡◌, ◌<◌, ◌^◌, length, slice_get};
ghost use Rattle.std.specs.Option.{option_copied};

use place_ids::{ClassId, FunId, Id, NameId, Names};
use py_scope::Scopes;
use sqlite_items::Items;
use stack_code::ValidCode;
use std::marker::Model;
use tree_code::{ClassRow, FunRow};

/// The code of a module's body and of its functions, its names with AssertionError among them, and what is told of its functions and classes. Functions and classes stand under their numbers.
#[derive(Debug, Drop)]
pub struct Program {
    module: ValidCode,
    codes: Items<ValidCode>,
    names: Names,
    scopes: Scopes,
    funs: Items<FunRow>,
    classes: Items<ClassRow>,
    class_names: Items<NameId>,
}

impl Model for Program {
    ghost use Rattle.std.specs.Prelude.{◌<◌, ◌^◌, length};
    ghost use Rattle.program_tables.specs.Programs.{Compiled};

    ghost Value = { Compiled };

    ghost view = { λ p. record {
      program = record { body = p.module; codes = p.codes; names = p.names; funs = p.funs; classes = p.classes };
      scopes = p.scopes;
      class_names = p.class_names;
    } };

    ghost invariant = { λ p. length p.codes < 2 ^ 32 };
}

impl Program {
    /// The program of these codes and tables. Each function has a code and a row, and each class a row and a name.
    pub fn new(
        body: ValidCode,
        names: Names,
        scopes: Scopes,
        codes: Items<ValidCode>,
        funs: Items<FunRow>,
        classes: Items<ClassRow>,
        class_names: Items<NameId>,
    ) -> Program
        requires { length codes < 2 ^ 32 }
        ensures { result ≡ record {
          program = record { body = body; codes = codes; names = names; funs = funs; classes = classes };
          scopes = scopes;
          class_names = class_names;
        } }
    {
        Program {
            module: body,
            codes,
            names,
            scopes,
            funs,
            classes,
            class_names,
        }
    }

    pub fn module_code(&self) -> &ValidCode
        ensures { result.now ≡ self.now.program.body }
    {
        &self.module
    }

    /// The code of a function, if there is one of this number.
    pub fn fun_code(&self, fun: FunId) -> Option<&ValidCode>
        ensures { option_copied result ≡ slice_get self.now.program.codes fun }
    {
        self.codes.get(fun.number() as usize)
    }

    pub fn fun_count(&self) -> u32
        ensures { result ≡ length self.now.program.codes }
    {
        self.codes.len() as u32
    }

    pub fn names(&self) -> &Names
        ensures { result.now ≡ self.now.program.names }
    {
        &self.names
    }

    pub fn scopes(&self) -> &Scopes
        ensures { result.now ≡ self.now.scopes }
    {
        &self.scopes
    }

    /// What is told of a function, if there is one of this number.
    pub fn fun_row(&self, fun: FunId) -> Option<&FunRow>
        ensures { option_copied result ≡ slice_get self.now.program.funs fun }
    {
        self.funs.get(fun.number() as usize)
    }

    /// What is told of a class, if there is one of this number.
    pub fn class_row(&self, class: ClassId) -> Option<&ClassRow>
        ensures { option_copied result ≡ slice_get self.now.program.classes class }
    {
        self.classes.get(class.number() as usize)
    }

    /// The name of each class.
    pub fn class_names(&self) -> &[NameId]
        ensures { result.now ≡ self.now.class_names }
    {
        self.class_names.as_slice()
    }
}

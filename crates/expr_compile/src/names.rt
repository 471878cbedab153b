//! How names and constants are read and stored.
ghost use Rattle.std.specs.Prelude.{◌≡◌, [], Some};
ghost use Rattle.scope_rules.specs.NameLists.{place_of};
ghost use Rattle.tree_code.specs.Names.{load, store, forget, kind_of as spec_kind};
ghost use Rattle.expr_compile.specs.NamesOf.{locals_in};

use place_ids::{FunId, NameId};
use py_scope::Scopes;
use py_tree::Literal;
use stack_code::{ConstKind, Op};
use std::marker::Model;

/// The names that code sees: those of a function, or of the module's body. Contracts see the names of its locals.
#[derive(Drop)]
pub struct Names<'a> {
    scopes: &'a Scopes,
    fun: Option<FunId>,
}

impl<'a> Model for Names<'a> {
    ghost use Rattle.std.specs.Prelude.{List, ℕ};
    ghost use Rattle.expr_compile.specs.NamesOf.{locals_in};

    ghost Value = { List ℕ };

    ghost view = { λ n. locals_in n.scopes.now n.fun };
}

impl<'a> Names<'a> {
    pub fn of_function(scopes: &'a Scopes, fun: FunId) -> Names<'a>
        ensures { result ≡ locals_in scopes.now (Some fun) }
    {
        Names {
            scopes,
            fun: Some(fun),
        }
    }

    pub fn of_module(scopes: &'a Scopes) -> Names<'a>
        ensures { result ≡ [] }
    {
        Names { scopes, fun: None }
    }

    /// Those of the module around.
    pub fn outside(&self) -> Names<'a>
        ensures { result ≡ [] }
    {
        Names::of_module(self.scopes)
    }

    fn local(&self, name: NameId) -> Option<u32>
        ensures { result ≡ place_of self.now name }
    {
        match self.fun {
            Some(fun) => self.scopes.local(fun, name),
            None => None,
        }
    }

    pub fn load(&self, name: NameId) -> Op
        ensures { result ≡ load self.now name }
    {
        match self.local(name) {
            Some(local) => Op::LoadLocal(local),
            None => Op::LoadName(name),
        }
    }

    pub fn store(&self, name: NameId) -> Op
        ensures { result ≡ store self.now name }
    {
        match self.local(name) {
            Some(local) => Op::StoreLocal(local),
            None => Op::StoreName(name),
        }
    }

    pub fn forget(&self, name: NameId) -> Op
        ensures { result ≡ forget self.now name }
    {
        match self.local(name) {
            Some(local) => Op::ForgetLocal(local),
            None => Op::ForgetName(name),
        }
    }
}

/// What kind of constant a literal is.
pub fn kind_of(literal: Literal) -> ConstKind
    ensures { result ≡ spec_kind literal }
{
    match literal {
        Literal::NoneValue => ConstKind::NoneValue,
        Literal::TrueValue => ConstKind::TrueValue,
        Literal::FalseValue => ConstKind::FalseValue,
        Literal::Int(_, _) => ConstKind::Int,
        Literal::Float => ConstKind::Float,
        Literal::Str(_) => ConstKind::Str,
        Literal::Bytes(_) => ConstKind::Bytes,
    }
}

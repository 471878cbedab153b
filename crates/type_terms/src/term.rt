//! The term of a type.
use crate::copied::copy_term;
use crate::same::same_term;
use place_ids::Text;
use std::alloc::{AllocError, Global};

/// A type, as a stub names it. Contracts see it as a tree without pointers.
#[derive(Debug, Drop)]
pub enum TypeTerm {
    Any,
    NoneTerm,
    Bool,
    Int,
    Float,
    Str,
    Bytes,
    List(Box<TypeTerm>),
    /// The keys' type and the values' type.
    Dict(Box<TypeTerm>, Box<TypeTerm>),
    /// A tuple of so many places.
    Tuple(Vec<TypeTerm>),
    /// A tuple of any length.
    TupleOf(Box<TypeTerm>),
    /// An instance of the class of this name.
    Class(Text),
    /// The class of this name.
    ClassOf(Text),
    /// A callable of any arguments, with the type of what it returns.
    Callable(Box<TypeTerm>),
    Union(Vec<TypeTerm>),
}

impl TypeTerm {
    ghost use Rattle.std.specs.Prelude.{◌≡◌, ◌↔◌, IsTrue, IfOk};
    ghost use Rattle.type_terms.specs.View.{term_view};

    /// The same type again.
    pub fn copy(&self, alloc: Global) -> Result<TypeTerm, AllocError>
        ensures { IfOk result (λ made. term_view made ≡ term_view self.now) }
    {
        copy_term(alloc, self)
    }

    /// Whether two types are one.
    pub fn same(&self, other: &TypeTerm) -> bool
        ensures { IsTrue result ↔ (term_view self.now ≡ term_view other.now) }
    {
        same_term(self, other)
    }
}

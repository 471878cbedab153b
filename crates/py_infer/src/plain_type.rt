//! The types of a plain module's names.
ghost use Rattle.std.specs.Prelude.{◌≡◌};
ghost use Rattle.type_terms.specs.View.{term_view};
ghost use Rattle.py_infer.specs.Stubs.{term_of};

use type_terms::TypeTerm;

/// A type that a stub prints.
#[derive(Clone, Copy, Debug, PartialEq, Eq)]
pub enum PlainType {
    NoneType,
    Bool,
    Int,
    Float,
    Str,
    Bytes,
}

impl PlainType {
    /// The term of the type.
    pub fn term(self) -> TypeTerm
        ensures { term_view result ≡ term_of self }
    {
        match self {
            PlainType::NoneType => TypeTerm::NoneTerm,
            PlainType::Bool => TypeTerm::Bool,
            PlainType::Int => TypeTerm::Int,
            PlainType::Float => TypeTerm::Float,
            PlainType::Str => TypeTerm::Str,
            PlainType::Bytes => TypeTerm::Bytes,
        }
    }
}

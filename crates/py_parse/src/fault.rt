//! Why tokens have no tree.
use place_ids::Span;
use py_tokens::Form;
use std::alloc::AllocFailed;
use thiserror::Error;

/// Why tokens have no tree. But for `Memory` it stands at the first token with which no module's tokens agree, or which is
/// nested too deep.
#[derive(Clone, Copy, Debug, PartialEq, Eq, Error)]
pub enum ParseFault {
    #[error("a token that no module has there")]
    Unexpected(Span),
    /// A form of Python that the profile leaves out.
    #[error("a form that is outside the profile")]
    OutOfProfile(Form, Span),
    /// The nesting reaches 65.
    #[error("nested too deep")]
    TooDeep(Span),
    #[error("out of memory")]
    Memory,
}

impl<T: Drop> From<AllocFailed<T>> for ParseFault {
    ghost use Rattle.std.specs.Prelude.{◌≡◌};
    ghost use Rattle.py_parse.specs.declared.fault.ParseFault.TheVariants.{Memory};

    ghost from_gives = { λ _ fault. fault ≡ Memory };

    fn from(_failed: AllocFailed<T>) -> ParseFault {
        ParseFault::Memory
    }
}

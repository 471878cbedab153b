//! Names that the language itself has.

/// The name of a builtin.
#[derive(Clone, Copy, Debug, PartialEq, Eq)]
pub struct NativeName {
    pub text: &'static str,
}

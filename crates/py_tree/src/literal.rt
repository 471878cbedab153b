//! Constants of the text ("Literals").

/// A constant. Of a text or of bytes the tree keeps whether the content is empty, and of a float nothing.
#[derive(Clone, Copy, Debug, PartialEq, Eq)]
pub enum Literal {
    NoneValue,
    TrueValue,
    FalseValue,
    /// Whether a `-` stands before the digits, and the value of the digits. The `-` is part of the literal only in a default.
    Int(bool, u128),
    Float,
    /// Whether it is empty.
    Str(bool),
    /// Whether it is empty.
    Bytes(bool),
}

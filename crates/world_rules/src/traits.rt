//! What operators see of a shape.
use builtin_stubs::Basic;
use flow_graph::Truth;

/// How much is known of a shape's values.
#[derive(Clone, Copy, Debug, PartialEq, Eq)]
pub enum Knowledge {
    /// Their kind tells what operators do.
    Followed,
    /// They are instances of a stub's class.
    StubInstance,
    /// They are from outside, of no declared type.
    Ext,
    /// They are any values.
    Any,
}

/// The kind of a shape's values, how much is known of them, and whether they are true.
#[derive(Clone, Copy, Debug, PartialEq, Eq)]
pub struct ShapeTraits {
    pub kind: Basic,
    pub knowledge: Knowledge,
    pub truth: Truth,
}

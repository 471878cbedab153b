//! What the cells of the tables of operators say of an operand.
ghost use Rattle.std.specs.Prelude.{◌≡◌};
ghost use Rattle.builtin_stubs.specs.Operands.{fits, first_of, first_of_two};

use crate::Basic;

/// What an operand has to be.
#[derive(Clone, Copy, Debug, PartialEq, Eq)]
pub enum Operand {
    Nothing,
    Truth,
    /// An int or a truth value.
    Whole,
    /// A whole number or a float.
    Number,
    Text,
    Binary,
    /// A list.
    Row,
    /// A tuple.
    Fixed,
    /// A dict.
    Mapping,
    /// A view.
    Viewed,
    /// A range.
    Span,
    /// Anything but a list and a dict.
    Key,
    Anything,
}

impl Operand {
    /// Whether the values of a kind are so.
    pub fn fits(self, kind: Basic) -> bool
        ensures { result ≡ fits self kind }
    {
        match self {
            Operand::Nothing => matches!(kind, Basic::NoneKind),
            Operand::Truth => matches!(kind, Basic::Bool),
            Operand::Whole => matches!(kind, Basic::Bool | Basic::Int),
            Operand::Number => matches!(kind, Basic::Bool | Basic::Int | Basic::Float),
            Operand::Text => matches!(kind, Basic::Str),
            Operand::Binary => matches!(kind, Basic::Bytes),
            Operand::Row => matches!(kind, Basic::List),
            Operand::Fixed => matches!(kind, Basic::Tuple),
            Operand::Mapping => matches!(kind, Basic::Dict),
            Operand::Viewed => matches!(kind, Basic::View),
            Operand::Span => matches!(kind, Basic::Range),
            Operand::Key => !matches!(kind, Basic::List | Basic::Dict),
            Operand::Anything => true,
        }
    }
}

/// The cell of the first row that fits.
pub(crate) fn first_of<T: Copy>(rows: &[(Operand, T)], kind: Basic) -> Option<T>
    ensures { result ≡ first_of rows.now kind }
{
    for row in rows {
        if row.0.fits(kind) {
            return Some(row.1);
        }
    }
    None
}

/// The same, of rows of two operands.
pub(crate) fn first_of_two<T: Copy>(
    rows: &[(Operand, Operand, T)],
    left: Basic,
    right: Basic,
) -> Option<T>
    ensures { result ≡ first_of_two rows.now left right }
{
    for row in rows {
        if row.0.fits(left) && row.1.fits(right) {
            return Some(row.2);
        }
    }
    None
}

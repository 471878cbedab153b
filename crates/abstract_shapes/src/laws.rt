//! What holds of all printed types.
ghost use Rattle.abstract_shapes.specs.Laws.{OnePrintedType};

use type_terms::laws::same_members_same_form;

/// A set of shapes has at most one printed type at a depth, whatever the order of its shapes and of those of the joined tables.
pub fn one_printed_type()
    ensures { OnePrintedType }
{
    same_members_same_form();
}

//! What holds of all normal forms and codes.
ghost use Rattle.type_terms.specs.Laws.{OneNormalForm, NormalFormsAreNormal, SameMembersSameForm, OneTypeACode};

/// A type has at most one normal form.
pub fn one_normal_form()
    ensures { OneNormalForm }
{}

/// A normal form is its own normal form.
pub fn normal_forms_are_normal()
    ensures { NormalFormsAreNormal }
{}

/// Two unions with the same members have one normal form.
pub fn same_members_same_form()
    ensures { SameMembersSameForm }
{}

/// A type's code tells which type it is.
pub fn one_type_a_code()
    ensures { OneTypeACode }
{}

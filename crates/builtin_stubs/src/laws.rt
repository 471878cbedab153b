//! What holds of the tables.
ghost use Rattle.builtin_stubs.specs.Laws.{NamesAreTaken, NumbersLeadBack, NoRowIsEmpty, KindsAreOfARow, ContainersComeOfContainers, OrderIsOfOneKind, IndicesAreWhole, EffectsHavePlaces, EffectsAreGiven};

/// The functions and classes are the names that no class of a stub has, and `base_init`.
pub fn names_are_taken()
    ensures { NamesAreTaken }
{}

/// A number that a name leads to is that of a row with this name.
pub fn numbers_lead_back()
    ensures { NumbersLeadBack }
{}

/// No row of operators gives nothing.
pub fn no_row_is_empty()
    ensures { NoRowIsEmpty }
{}

/// What an operator gives is what some row gives whose cells the two kinds fit.
pub fn kinds_are_of_a_row()
    ensures { KindsAreOfARow }
{}

/// An operator makes a list or a tuple only of one.
pub fn containers_come_of_containers()
    ensures { ContainersComeOfContainers }
{}

/// Numbers are in order with numbers, and any other value with those of its kind.
pub fn order_is_of_one_kind()
    ensures { OrderIsOfOneKind }
{}

/// But for a dict an index is a whole number.
pub fn indices_are_whole()
    ensures { IndicesAreWhole }
{}

/// What enters a list enters its elements, what enters a dict its keys and values, and nothing enters any other receiver.
pub fn effects_have_places()
    ensures { EffectsHavePlaces }
{}

/// What enters a receiver is of an argument that each call gives.
pub fn effects_are_given()
    ensures { EffectsAreGiven }
{}

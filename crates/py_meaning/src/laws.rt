//! What holds of every run.
ghost use Rattle.py_meaning.specs.References.{ReferencesPointIn};
ghost use Rattle.py_meaning.specs.Receivers.{ReceiversFit};
ghost use Rattle.py_meaning.specs.ClassLaws.{ClassesHaveOneObject, ClassesKeepTheirNames};
ghost use Rattle.py_meaning.specs.UnionLaws.{UnionsHaveTheirMembers};
ghost use Rattle.py_meaning.specs.KindLaws.{FreshIsOfAKind, OperatorsKeepTheirRows, SignsKeepTheirRows, OrdersKeepTheirRows, OtherKindsHaveNoSlice, SlicesKeepTheirKind, OtherKindsTakeNoItems, StoresAreNoFaults, TruthIsByKind};
ghost use Rattle.py_meaning.specs.Laws.{MoreTurnsChangeNothing, NestingIsEnough, ChoicesFromTheFront, WholeIsNoTruth, NothingAfterTheEnding, CallsAddEvents, StepsMayRaise, RaisesTakeAChoice};
ghost use Rattle.py_meaning.specs.ObjectLaws.{ObjectsStay, PartsChangeByOneStep, CallsLeaveFrames};

/// More turns change nothing of a run that is over.
pub fn more_turns_change_nothing()
    ensures { MoreTurnsChangeNothing }
{}

/// As many turns as are left may stand one in the other: letting more stand so changes nothing.
pub fn nesting_is_enough()
    ensures { NestingIsEnough }
{}

/// A run takes its choices from the front.
pub fn choices_from_the_front()
    ensures { ChoicesFromTheFront }
{}

/// A fresh whole number is never a truth value.
pub fn whole_is_no_truth()
    ensures { WholeIsNoTruth }
{}

/// Without calls from outside each event comes before the module's ending.
pub fn nothing_after_the_ending()
    ensures { NothingAfterTheEnding }
{}

/// Calls from outside only add events.
pub fn calls_add_events()
    ensures { CallsAddEvents }
{}

/// Each reference in the last heap points into it.
pub fn references_point_in()
    ensures { ReferencesPointIn }
{}

/// A bound native is a method of a kind of its receiver, and a view of a dict's own parts has a dict.
pub fn receivers_fit()
    ensures { ReceiversFit }
{}

/// There is one object a class.
pub fn classes_have_one_object()
    ensures { ClassesHaveOneObject }
{}

/// From its statement on a class has each name that its body binds.
pub fn classes_keep_their_names()
    ensures { ClassesKeepTheirNames }
{}

/// A fresh value of a type is of a kind that the type has.
pub fn fresh_is_of_a_kind()
    ensures { FreshIsOfAKind }
{}

/// What an operator gives of values that are followed is of a kind of its row.
pub fn operators_keep_their_rows()
    ensures binary { OperatorsKeepTheirRows }
    ensures unary { SignsKeepTheirRows }
    ensures order { OrdersKeepTheirRows }
{}

/// A step that may raise takes one choice, which says whether it raises.
pub fn steps_may_raise()
    ensures { StepsMayRaise }
{}

/// Whatever is raised comes behind a choice.
pub fn raises_take_a_choice()
    ensures { RaisesTakeAChoice }
{}

/// Whatever is done, each object keeps its kind, its class and its place, and the heap only grows.
pub fn objects_stay()
    ensures { ObjectsStay }
{}

/// Parts change by one step alone, and by it those of one object.
pub fn parts_change_by_one_step()
    ensures { PartsChangeByOneStep }
{}

/// A call leaves its caller's frame, and the exception that is under way there.
pub fn calls_leave_frames()
    ensures { CallsLeaveFrames }
{}

/// A value belongs to the normal form of a union exactly where it belongs to one of its members.
pub fn unions_have_their_members()
    ensures { UnionsHaveTheirMembers }
{}

/// What has a slice, and takes a store by an index, is told by its kind alone, and a slice is of the kind of what is sliced.
pub fn subscripts_are_by_kind()
    ensures slices { OtherKindsHaveNoSlice }
    ensures kinds { SlicesKeepTheirKind }
    ensures stores { OtherKindsTakeNoItems }
    ensures faults { StoresAreNoFaults }
{}

/// Whether parts, a choice or nothing says what is true is told by its kind, and of what is outside a choice says it.
pub fn truth_is_by_kind()
    ensures { TruthIsByKind }
{}

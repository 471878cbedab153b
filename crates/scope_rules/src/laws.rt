//! What holds of the first fault, and of the names that are printed.
ghost use Rattle.std.specs.Prelude.{◌≡◌, ℕ, [], List, Some, None};
ghost use Rattle.scope_rules.specs.declared.fault.Fault.{Fault};
ghost use Rattle.scope_rules.specs.declared.mention.Mention.{Mention};
ghost use Rattle.scope_rules.specs.Faults.{first, IsFirst};
ghost use Rattle.scope_rules.specs.NameLists.{has_name};
ghost use Rattle.scope_rules.specs.Named.{mentioned};
ghost use Rattle.scope_rules.specs.Printed.{printed_of, ArePrinted, HaveOwnTexts};
ghost use Rattle.scope_rules.specs.Roles.{is_value};

/// The first fault is one of the faults, and none of them is before it. There is one unless there are no faults.
pub fn the_first_fault_is_first()
    ensures found { (faults : List Fault) (fault : Fault) → first faults ≡ Some fault → IsFirst faults fault }
    ensures none { (faults : List Fault) → first faults ≡ None → faults ≡ [] }
{}

/// One list of names is printed: exactly those that get a value, rising by their texts. Names that share a text change no members.
pub fn one_list_is_printed()
    ensures members { (texts : List (List ℕ)) (us : List Mention) (n : ℕ) → has_name (printed_of texts us) n ≡ mentioned is_value n us }
    ensures printed { (texts : List (List ℕ)) (us : List Mention) → HaveOwnTexts texts us → ArePrinted texts us (printed_of texts us) }
    ensures alone { (texts : List (List ℕ)) (us : List Mention) (names : List ℕ) → ArePrinted texts us names → names ≡ printed_of texts us }
{}

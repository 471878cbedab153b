//! The whole least worlds of some modules, and what they tell.
ghost use Rattle.std.specs.Prelude.{◌≡◌, ◌↔◌, ℕ, List, [], ◌∷◌, codes};
ghost use Rattle.std.specs.List.{Contains};
ghost use Rattle.abstract_shapes.specs.Shapes.{Shape, none, int, str};
ghost use Rattle.world_rules.specs.declared.finding.FindingKind.TheVariants as FindingKind;
ghost use Rattle.world_rules.specs.declared.finding.Finding.{Finding};
ghost use Rattle.world_rules.specs.Items.{Item};
ghost use Rattle.world_rules.specs.Rules.{IsLeast};
ghost use Rattle.world_rules.specs.Findings.{AreFindings, AreUnchecked, AreHeavy};
ghost use Rattle.world_rules.specs.Stubs.{EndsWith};
ghost use Rattle.world_rules.specs.Samples.{one_line, unknown_name, text_and_int, outside_negated, loop_module, branch_module};
ghost use Rattle.scope_rules.specs.Scoped.{scoped};
ghost use Rattle.tree_code.specs.Programs.{program_of};
ghost use Rattle.world_cases.specs.Trees.{line_tree, unknown_tree, sum_tree, outside_tree, loop_tree, branch_tree};
ghost use Rattle.world_cases.specs.Worlds.{line_world, loop_world, branch_world};

/// The world of `x = 1` gives the name an int, and nothing else.
pub fn a_name_gets_its_value()
    ensures least { IsLeast one_line line_world }
    ensures findings { AreFindings one_line line_world [] }
    ensures unchecked { AreUnchecked one_line line_world [] }
    ensures heavy { AreHeavy one_line line_world [] }
    ensures ends { (t : Shape) → EndsWith one_line line_world 0 t ↔ Contains (int ∷ []) t }
{}

/// A `while` whose name gets a text: both shapes come to both names, and the sign before the text is the only finding.
pub fn a_loop_joins_its_rounds()
    ensures least { IsLeast loop_module loop_world }
    ensures findings { AreFindings loop_module loop_world (record { line = 5; kind = FindingKind.UnsupportedOperands; text = codes "- str" } ∷ []) }
    ensures unchecked { AreUnchecked loop_module loop_world [] }
    ensures heavy { AreHeavy loop_module loop_world [] }
    ensures x { (t : Shape) → EndsWith loop_module loop_world 0 t ↔ Contains (int ∷ str ∷ []) t }
    ensures y { (t : Shape) → EndsWith loop_module loop_world 1 t ↔ Contains (int ∷ str ∷ []) t }
    ensures z { (t : Shape) → EndsWith loop_module loop_world 2 t ↔ Contains (int ∷ []) t }
{}

/// An `if` of which one arm is dead: the arm has no fact, and gives the name no shape.
pub fn a_dead_arm_gives_nothing()
    ensures least { IsLeast branch_module branch_world }
    ensures findings { AreFindings branch_module branch_world [] }
    ensures unchecked { AreUnchecked branch_module branch_world [] }
    ensures heavy { AreHeavy branch_module branch_world [] }
    ensures x { (t : Shape) → EndsWith branch_module branch_world 0 t ↔ Contains (none ∷ []) t }
    ensures y { (t : Shape) → EndsWith branch_module branch_world 1 t ↔ Contains (int ∷ []) t }
{}

/// `nope`: a name of which nothing is known is the only finding, and marks no line.
pub fn an_unknown_name_is_found()
    ensures least { (items : List Item) × IsLeast unknown_name items }
    ensures findings { (items : List Item) → IsLeast unknown_name items → AreFindings unknown_name items (record { line = 1; kind = FindingKind.NameError; text = codes "nope" } ∷ []) }
    ensures unchecked { (items : List Item) → IsLeast unknown_name items → AreUnchecked unknown_name items [] }
{}

/// `"a" + 1`: the operator is the only finding, and marks no line.
pub fn a_sum_of_a_text_and_an_int_is_found()
    ensures least { (items : List Item) × IsLeast text_and_int items }
    ensures findings { (items : List Item) → IsLeast text_and_int items → AreFindings text_and_int items (record { line = 1; kind = FindingKind.UnsupportedOperands; text = codes "str + int" } ∷ []) }
    ensures unchecked { (items : List Item) → IsLeast text_and_int items → AreUnchecked text_and_int items [] }
{}

/// `-abs`: a name from outside has no finding, and neither has a sign before it; its line is unchecked.
pub fn a_name_from_outside_is_not_found()
    ensures least { (items : List Item) × IsLeast outside_negated items }
    ensures findings { (items : List Item) → IsLeast outside_negated items → AreFindings outside_negated items [] }
    ensures unchecked { (items : List Item) → IsLeast outside_negated items → AreUnchecked outside_negated items (1 ∷ []) }
{}

/// The code of the modules is that of their trees, and their scopes are.
pub fn modules_have_the_code_of_their_trees()
    ensures line { ((program_of line_tree).body ≡ one_line.program.body) × (scoped line_tree ≡ one_line.scopes) }
    ensures unknown { ((program_of unknown_tree).body ≡ unknown_name.program.body) × (scoped unknown_tree ≡ unknown_name.scopes) }
    ensures sum { ((program_of sum_tree).body ≡ text_and_int.program.body) × (scoped sum_tree ≡ text_and_int.scopes) }
    ensures outside { ((program_of outside_tree).body ≡ outside_negated.program.body) × (scoped outside_tree ≡ outside_negated.scopes) }
    ensures loop_code { ((program_of loop_tree).body ≡ loop_module.program.body) × (scoped loop_tree ≡ loop_module.scopes) }
    ensures branch_code { ((program_of branch_tree).body ≡ branch_module.program.body) × (scoped branch_tree ≡ branch_module.scopes) }
{}

//! Laws of worlds.
ghost use Rattle.std.specs.Prelude.{◌≡◌, ◌≢◌, ◌↔◌, ℕ, suc, ◌+◌, ◌-◌, ◌≤◌, ◌<◌, true, false, Some, List, length, option_map, codes};
ghost use Rattle.std.specs.List.{Contains};
ghost use Rattle.graph_walks.specs.Worlds.{Memory, HasFact};
ghost use Rattle.graph_walks.specs.Walks.{Answers, Walk, Visible};
ghost use Rattle.graph_walks.specs.Growth.{IsWithin};
ghost use Rattle.stack_code.specs.declared.op.Op.{Op};
ghost use Rattle.stack_code.specs.Effects.{effect_of, falls, goal_of, depth_after, depth_at_goal};
ghost use Rattle.type_terms.specs.Stubs.{Stub};
ghost use Rattle.abstract_shapes.specs.Shapes.{Shape, none, int, str};
ghost use Rattle.world_rules.specs.Places.{Context, Point, Variable, at, target_of, slots_left};
ghost use Rattle.world_rules.specs.Sources.{Source};
ghost use Rattle.world_rules.specs.Branches.{Branch, branch, fall_test, ask_top, is_call};
ghost use Rattle.world_rules.specs.Items.{Item, a_context, an_edge, an_entry, Agree, map_of, variables, world_of};
ghost use Rattle.world_rules.specs.Rows.{row_of, asks};
ghost use Rattle.world_rules.specs.Rules.{HasPlace, Stands, readings_at, fall_edge, jump_edge, Yields, Fires, GivesAt, Gives, IsClosed, IsContained, IsDerived, AreDerived, IsLeast, IsLarger};
ghost use Rattle.world_rules.specs.Findings.{FindsAt, IsFinding, IsUnchecked, IsQuery, IsReported, AreFindings, AreUnchecked, AreHeavy};
ghost use Rattle.world_rules.specs.Stubs.{EndsWith, IsStubOf};
ghost use Rattle.world_rules.specs.OfProgram.{IsOfProgram};
ghost use Rattle.world_rules.specs.Memories.{updated};
ghost use Rattle.world_rules.specs.Samples.{one_line, stored_int, unknown_name, text_and_int, outside_negated, outside_twice, loop_module, branch_module};
ghost use Rattle.place_ids.specs.declared.operators.BinOp.TheVariants as BinOp;
ghost use Rattle.place_ids.specs.declared.operators.CompareOp.TheVariants as CompareOp;
ghost use Rattle.stack_code.specs.declared.op.Op.TheVariants as Op;
ghost use Rattle.world_rules.specs.declared.finding.FindingKind.TheVariants as FindingKind;
ghost use Rattle.world_rules.specs.declared.finding.Fault.{Fault};
ghost use Rattle.world_rules.specs.declared.finding.Finding.{Finding};
ghost use Rattle.world_rules.specs.declared.row.TableEntry.{TableEntry};
ghost use Rattle.world_rules.specs.declared.row.TransferRow.{TransferRow};
ghost use Rattle.world_rules.specs.declared.row.Yield.{Yield};
ghost use Rattle.world_rules.specs.declared.transfer.SeatReading.{SeatReading};
ghost use Rattle.world_rules.specs.Texts.{fault_text};

use abstract_shapes::laws::one_printed_type;

/// More items make a larger world, and what the rules give they go on to give.
pub fn rules_go_on()
    ensures worlds { (s : Source) (items more : List Item) → IsContained items more → IsWithin (world_of s items) (world_of s more) }
    ensures points { (s : Source) (items more : List Item) → IsContained items more → (p : Point) (i : Item) → GivesAt s items p i → GivesAt s more p i }
    ensures items { (s : Source) (items more : List Item) → IsContained items more → (i : Item) → Gives s items i → Gives s more i }
{}

/// What is built by the rules is in each closed world; if it is closed, it is the least.
pub fn derived_and_closed_is_least()
    ensures within { (s : Source) (items other : List Item) → AreDerived s items → IsClosed s other → IsContained items other }
    ensures least { (s : Source) (items : List Item) → AreDerived s items → IsClosed s items → IsLeast s items }
{}

/// Where more items are derived than the limit, no least world has so few.
pub fn a_larger_world_is_no_smaller()
    ensures { (s : Source) (limit : ℕ) (items : List Item) → IsLarger s limit → IsLeast s items → length items ≤ limit → ⊥ }
{}

/// All least worlds of a source have the same items, and tell the same.
pub fn least_worlds_tell_the_same()
    ensures items { (s : Source) (items more : List Item) → IsLeast s items → IsLeast s more → (i : Item) → Contains items i ↔ Contains more i }
    ensures findings { (s : Source) (items more : List Item) → IsLeast s items → IsLeast s more → (one other : List Finding) → AreFindings s items one → AreFindings s more other → one ≡ other }
    ensures unchecked { (s : Source) (items more : List Item) → IsLeast s items → IsLeast s more → (one other : List ℕ) → AreUnchecked s items one → AreUnchecked s more other → one ≡ other }
    ensures heavy { (s : Source) (items more : List Item) → IsLeast s items → IsLeast s more → (one other : List ℕ) → AreHeavy s items one → AreHeavy s more other → one ≡ other }
    ensures reported { (s : Source) (items more : List Item) → IsLeast s items → IsLeast s more → (line : ℕ) → IsReported s items line ↔ IsReported s more line }
{}

/// All least worlds of a source have one stub.
pub fn least_worlds_have_one_stub()
    ensures { (s : Source) (items more : List Item) → IsLeast s items → IsLeast s more → (one other : Stub) → IsStubOf s items one → IsStubOf s more other → one ≡ other }
{
    one_printed_type();
}

/// A reading whose shapes are visible fires, those of a walk's own memory among them.
pub fn what_is_visible_fires()
    ensures visible { (s : Source) (items : List Item) (c : Context) (place depth : ℕ) (o : Op) (r : SeatReading) (shapes : List Shape) →
        Contains items (a_context c) → Stands s c place depth o → Contains (readings_at s c depth o) r → asks r.transfer shapes ≡ true →
        Agree (variables c r.seats) shapes (map_of (variables c r.seats) shapes) → Visible (world_of s items) (at c place depth) (map_of (variables c r.seats) shapes) →
        Fires s items c place depth r shapes }
    ensures walk { (s : Source) (items : List Item) (c : Context) (place depth : ℕ) (o : Op) (r : SeatReading) (shapes : List Shape) (m : Memory Variable Shape) →
        Contains items (a_context c) → Stands s c place depth o → Contains (readings_at s c depth o) r → asks r.transfer shapes ≡ true →
        Agree (variables c r.seats) shapes m → Walk (world_of s items) (at c place depth) m →
        Fires s items c place depth r shapes }
{}

/// In a closed world what fires has its facts and its entries.
pub fn what_fires_is_there()
    ensures facts { (s : Source) (items : List Item) → IsClosed s items → (c : Context) (place depth : ℕ) (r : SeatReading) (shapes : List Shape) → Fires s items c place depth r shapes →
        (y : Yield) (t : Shape) → Contains (row_of r.transfer shapes).results y → Yields s items shapes y t → HasFact (world_of s items) (at c place depth) t (map_of (variables c r.seats) shapes) }
    ensures entries { (s : Source) (items : List Item) → IsClosed s items → (c : Context) (place depth : ℕ) (r : SeatReading) (shapes : List Shape) → Fires s items c place depth r shapes →
        (e : TableEntry) (t : Shape) → Contains (row_of r.transfer shapes).entries e → Yields s items shapes e.given t → Contains items (an_entry e.place t) }
{}

/// In a closed world an instruction has its edges; the depths behind them are those that it leaves.
pub fn instructions_have_their_edges()
    ensures fall { (s : Source) (items : List Item) → IsClosed s items → (c : Context) (place depth : ℕ) (o : Op) → Contains items (a_context c) → Stands s c place depth o →
        falls o ≡ true → is_call o ≡ false → HasPlace s c (suc place) (depth_after o depth) → Contains (world_of s items).edges (fall_edge c place depth o) }
    ensures jump { (s : Source) (items : List Item) → IsClosed s items → (c : Context) (place depth : ℕ) (o : Op) (b : Branch) → Contains items (a_context c) → Stands s c place depth o →
        branch o ≡ Some b → HasPlace s c b.goal (depth_at_goal o depth) → Contains (world_of s items).edges (jump_edge c place depth o b) }
    ensures depth { (o : Op) (rest : ℕ) → depth_after o (rest + (effect_of o).takes) ≡ rest + (effect_of o).pushes }
    ensures goals { (o : Op) → option_map (λ b. b.goal) (branch o) ≡ goal_of o }
{}

/// A place that an instruction leads to is one with the depth that it leaves, where the instruction finds its slots and the place is one of the code's.
pub fn places_behind_have_depths()
    ensures fall { (s : Source) (c : Context) (place depth : ℕ) (o : Op) → (h : Stands s c place depth o) → (effect_of o).needs ≤ depth → falls o ≡ true → suc place < length h.code.ops →
        HasPlace s c (suc place) (depth_after o depth) }
    ensures jump { (s : Source) (c : Context) (place depth : ℕ) (o : Op) (b : Branch) → (h : Stands s c place depth o) → (effect_of o).needs ≤ depth → branch o ≡ Some b → b.goal < length h.code.ops →
        HasPlace s c b.goal (depth_at_goal o depth) }
{}

/// In a closed world an instruction extends each walk to it: over its fall edge with a shape that its row gives for the walk's shapes, or with what the walk had of other variables; and over its jump edge with all that the walk had.
pub fn an_instruction_extends_a_walk()
    ensures assigns { (s : Source) (items : List Item) → IsClosed s items → (c : Context) (place depth : ℕ) (o : Op) (m : Memory Variable Shape) →
        Contains items (a_context c) → Stands s c place depth o → Walk (world_of s items) (at c place depth) m →
        falls o ≡ true → is_call o ≡ false → HasPlace s c (suc place) (depth_after o depth) → Answers (world_of s items) (ask_top c depth (fall_test o)) m →
        (r : SeatReading) (shapes : List Shape) → Contains (readings_at s c depth o) r → asks r.transfer shapes ≡ true → Agree (variables c r.seats) shapes m →
        (y : Yield) (t : Shape) → Contains (row_of r.transfer shapes).results y → Yields s items shapes y t →
        (x : Variable) → target_of s.program (at c place depth) ≡ Some x → Walk (world_of s items) (at c (suc place) (depth_after o depth)) (updated m x t) }
    ensures passes { (s : Source) (items : List Item) → IsClosed s items → (c : Context) (place depth : ℕ) (o : Op) (m n : Memory Variable Shape) →
        Contains items (a_context c) → Stands s c place depth o → Walk (world_of s items) (at c place depth) m →
        falls o ≡ true → is_call o ≡ false → HasPlace s c (suc place) (depth_after o depth) → Answers (world_of s items) (ask_top c depth (fall_test o)) m →
        ((x : Variable) (t : Shape) → n x ≡ Some t → (target_of s.program (at c place depth) ≢ Some x) × (m x ≡ Some t)) →
        Walk (world_of s items) (at c (suc place) (depth_after o depth)) n }
    ensures jumps { (s : Source) (items : List Item) → IsClosed s items → (c : Context) (place depth : ℕ) (o : Op) (b : Branch) (m : Memory Variable Shape) →
        Contains items (a_context c) → Stands s c place depth o → Walk (world_of s items) (at c place depth) m →
        branch o ≡ Some b → HasPlace s c b.goal (depth_at_goal o depth) → Answers (world_of s items) (ask_top c depth b.on_jump) m →
        Walk (world_of s items) (at c b.goal (depth_at_goal o depth)) m }
    ensures finds { (s : Source) (items : List Item) (c : Context) (place depth : ℕ) (o : Op) (m : Memory Variable Shape) →
        Contains items (a_context c) → Stands s c place depth o → Walk (world_of s items) (at c place depth) m →
        (r : SeatReading) (shapes : List Shape) → Contains (readings_at s c depth o) r → asks r.transfer shapes ≡ true → Agree (variables c r.seats) shapes m →
        (f : Fault) → (row_of r.transfer shapes).fault ≡ Some f → FindsAt s items c place depth (fault_text s.program f shapes) }
{}

/// What fires at a point is one of its queries, so each of its shapes is given to its variable by some fact.
pub fn what_fires_is_a_query()
    ensures { (s : Source) (items : List Item) (c : Context) (place depth : ℕ) (r : SeatReading) (shapes : List Shape) → Fires s items c place depth r shapes →
        IsQuery s items c place depth (map_of (variables c r.seats) shapes) }
{}

/// Each derived item is of the program.
pub fn derived_items_are_of_the_program()
    ensures { (s : Source) (i : Item) → IsDerived s i → IsOfProgram s i }
{}

/// The slots that are left of a stack are counted by subtraction.
pub fn slots_are_counted()
    ensures { (depth taken : ℕ) → slots_left depth taken ≡ depth - taken }
{}

/// In the world of `x = 1` the name gets an int.
pub fn a_world_is_not_empty()
    ensures { IsDerived one_line stored_int }
{}

/// What each closed world, and so the least, tells of some modules: `nope`, `"a" + 1`, an operator of each rule that marks a line, a `while` whose name gets a text, and an `if` of which one arm is dead.
pub fn worlds_tell_of_modules()
    ensures unknown { (items : List Item) → IsClosed unknown_name items → IsFinding unknown_name items (record { line = 1; kind = FindingKind.NameError; text = codes "nope" }) }
    ensures sum { (items : List Item) → IsClosed text_and_int items → IsFinding text_and_int items (record { line = 1; kind = FindingKind.UnsupportedOperands; text = codes "str + int" }) }
    ensures negation { (items : List Item) → IsClosed outside_negated items → IsUnchecked outside_negated items 1 }
    ensures outside_sum { (items : List Item) → IsClosed (outside_twice (Op.Binary BinOp.Add 2)) items → IsUnchecked (outside_twice (Op.Binary BinOp.Add 2)) items 1 }
    ensures outside_change { (items : List Item) → IsClosed (outside_twice (Op.InPlace BinOp.Add 2)) items → IsUnchecked (outside_twice (Op.InPlace BinOp.Add 2)) items 1 }
    ensures outside_order { (items : List Item) → IsClosed (outside_twice (Op.Compare CompareOp.Less)) items → IsUnchecked (outside_twice (Op.Compare CompareOp.Less)) items 1 }
    ensures outside_within { (items : List Item) → IsClosed (outside_twice (Op.Compare CompareOp.Within)) items → IsUnchecked (outside_twice (Op.Compare CompareOp.Within)) items 1 }
    ensures loop_finding { (items : List Item) → IsClosed loop_module items → IsFinding loop_module items (record { line = 5; kind = FindingKind.UnsupportedOperands; text = codes "- str" }) }
    ensures loop_ends { (items : List Item) → IsClosed loop_module items →
        EndsWith loop_module items 0 int × EndsWith loop_module items 0 str × EndsWith loop_module items 1 int × EndsWith loop_module items 1 str × EndsWith loop_module items 2 int }
    ensures branch_ends { (items : List Item) → IsClosed branch_module items → EndsWith branch_module items 0 none × EndsWith branch_module items 1 int }
{}

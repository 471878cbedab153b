//! Laws of queries, by numbers and by structure.
ghost use Rattle.std.specs.Prelude.{◌≡◌, ◌↔◌, ◌⊎◌, ℕ, List, [], ◌∷◌, Some, None, map, slice_get};
ghost use Rattle.std.specs.List.{Contains};
ghost use Rattle.graph_walks.specs.Worlds.{AllGiven};
ghost use Rattle.graph_walks.specs.Backs.{Seen};
ghost use Rattle.stack_code.specs.declared.op.Op.{Op};
ghost use Rattle.typegraph.specs.declared.goals.Binding.{Binding};
ghost use Rattle.typegraph.specs.Graphs.{GraphTables};
ghost use Rattle.typegraph.specs.Maps.{look, IsJoined};
ghost use Rattle.goal_solver.specs.Graphs as numbers;
ghost use Rattle.graph_queries.specs.Choices.{AreGiven, bindings};
ghost use Rattle.abstract_shapes.specs.Shapes.{Shape};
ghost use Rattle.world_rules.specs.declared.finding.FaultText.{FaultText};
ghost use Rattle.world_rules.specs.declared.row.TableEntry.{TableEntry};
ghost use Rattle.world_rules.specs.declared.row.TransferRow.{TransferRow};
ghost use Rattle.world_rules.specs.declared.row.Yield.{Yield};
ghost use Rattle.world_rules.specs.declared.transfer.SeatReading.{SeatReading};
ghost use Rattle.world_rules.specs.Places.{Context, main, Variable, global, at};
ghost use Rattle.world_rules.specs.Sources.{Source};
ghost use Rattle.world_rules.specs.Items.{Item, a_fact, an_entry, Agree, map_of, variables, world_of};
ghost use Rattle.world_rules.specs.Rows.{row_of};
ghost use Rattle.world_rules.specs.Rules.{Stands, readings_at, Yields, Fires, GivesAt};
ghost use Rattle.world_rules.specs.Findings.{FindsAt, UnchecksAt, IsQuery, IsHeavyAt};
ghost use Rattle.world_rules.specs.Stubs.{EndsWith};
ghost use Rattle.world_tables.specs.Tables.{Tables, items_of, memory_at, the_point, the_shape, AreFinished, IsNumbering};
ghost use Rattle.world_queries.specs.Choices.{AreMap, AreNumbersOf, HasChoice, IsChoice, shapes_by};
ghost use Rattle.world_queries.specs.Firings.{GivenBy, HasFault, HasUnchecked};
ghost use Rattle.world_queries.specs.Queries.{HasEnd, HasHeavyOutput, HasHeavyQuery, HasHeavyReading, HasHeavyShape, HasSeenChoice, IsReadBy, StandsAt};

/// A choice by numbers is a map that gives variables their shapes, and each such map whose pairs facts give is a choice. A choice has one map in order, and one that is no map gives some variable two shapes.
pub fn choices_are_maps()
    ensures maps { (s : Source) (t : Tables) → IsNumbering s t → (vars : List ℕ) (xs : List Variable) → AreNumbersOf t vars xs →
        (ids : List ℕ) (goals : List Binding) → IsChoice t.graph vars ids goals → AreMap s t goals xs (shapes_by t ids) }
    ensures chosen { (s : Source) (t : Tables) → IsNumbering s t → (vars : List ℕ) (xs : List Variable) → AreNumbersOf t vars xs →
        (shapes : List Shape) → Agree xs shapes (map_of xs shapes) → AllGiven (world_of s (items_of t)) (map_of xs shapes) → HasChoice t vars shapes }
    ensures same { (vars ids : List ℕ) (one other : List Binding) → IsJoined [] (bindings vars ids) (Some one) → IsJoined [] (bindings vars ids) (Some other) → look one ≡ look other }
    ensures one { (g : GraphTables) (vars ids : List ℕ) (goals others : List Binding) → IsChoice g vars ids goals → IsChoice g vars ids others → goals ≡ others }
    ensures answer { (vars ids : List ℕ) (goals : List Binding) → IsJoined [] (bindings vars ids) (Some goals) → IsJoined [] (bindings vars ids) None → ⊥ }
    ensures clash { (s : Source) (t : Tables) → IsNumbering s t → (vars : List ℕ) (xs : List Variable) → AreNumbersOf t vars xs →
        (ids : List ℕ) → AreGiven t.graph vars ids → IsJoined [] (bindings vars ids) None → Agree xs (shapes_by t ids) (map_of xs (shapes_by t ids)) → ⊥ }
{}

/// Variables have one list of numbers, and where facts give each of them a shape they have one.
pub fn variables_have_numbers()
    ensures once { (s : Source) (t : Tables) → IsNumbering s t → (xs : List Variable) (vars others : List ℕ) → AreNumbersOf t vars xs → AreNumbersOf t others xs → vars ≡ others }
    ensures given { (s : Source) (t : Tables) → IsNumbering s t → (xs : List Variable) (shapes : List Shape) → Agree xs shapes (map_of xs shapes) → AllGiven (world_of s (items_of t)) (map_of xs shapes) →
        (vars : List ℕ) × AreNumbersOf t vars xs }
{}

/// At a place with a depth stands one instruction.
pub fn one_instruction_stands()
    ensures { (s : Source) (c : Context) (place depth other : ℕ) (o p : Op) → Stands s c place depth o → Stands s c place other p → o ≡ p }
{}

/// A reading fires exactly for the shapes of those choices that are seen by numbers.
pub fn readings_fire_by_numbers()
    ensures fires { (s : Source) (t : Tables) → IsNumbering s t → (id : ℕ) (c : Context) (place depth : ℕ) (o : Op) → StandsAt s t id c place depth o →
        (r : SeatReading) (vars : List ℕ) → IsReadBy s t c depth o r vars → (ids : List ℕ) (goals : List Binding) → IsChoice t.graph vars ids goals →
        Seen (numbers.world_of t.graph) id (look goals) s.budget → Fires s (items_of t) c place depth r (shapes_by t ids) }
    ensures found { (s : Source) (t : Tables) → IsNumbering s t → (id : ℕ) (c : Context) (place depth : ℕ) (o : Op) → StandsAt s t id c place depth o →
        (r : SeatReading) (vars : List ℕ) → AreNumbersOf t vars (variables c r.seats) → (shapes : List Shape) → Fires s (items_of t) c place depth r shapes → HasSeenChoice s t id vars shapes }
    ensures reading { (s : Source) (t : Tables) → IsNumbering s t → (id : ℕ) (c : Context) (place depth : ℕ) (o : Op) → StandsAt s t id c place depth o →
        (r : SeatReading) (shapes : List Shape) → Fires s (items_of t) c place depth r shapes → (vars : List ℕ) × IsReadBy s t c depth o r vars }
{}

/// What a choice that is seen gives, by its row, is given by the rules of the point.
pub fn results_by_numbers()
    ensures fact { (s : Source) (t : Tables) → IsNumbering s t → (id : ℕ) (c : Context) (place depth : ℕ) (o : Op) → StandsAt s t id c place depth o →
        (r : SeatReading) (vars : List ℕ) → IsReadBy s t c depth o r vars → (ids : List ℕ) (goals : List Binding) → IsChoice t.graph vars ids goals →
        Seen (numbers.world_of t.graph) id (look goals) s.budget →
        (y : Yield) (shape : ℕ) → Contains (row_of r.transfer (shapes_by t ids)).results y → Yields s (items_of t) (shapes_by t ids) y (the_shape t shape) →
        GivesAt s (items_of t) (the_point t id) (a_fact (record { point = the_point t id; shape = the_shape t shape; source = memory_at t goals })) }
    ensures entry { (s : Source) (t : Tables) → IsNumbering s t → (id : ℕ) (c : Context) (place depth : ℕ) (o : Op) → StandsAt s t id c place depth o →
        (r : SeatReading) (vars : List ℕ) → IsReadBy s t c depth o r vars → (ids : List ℕ) (goals : List Binding) → IsChoice t.graph vars ids goals →
        Seen (numbers.world_of t.graph) id (look goals) s.budget →
        (e : TableEntry) (shape : ℕ) → Contains (row_of r.transfer (shapes_by t ids)).entries e → Yields s (items_of t) (shapes_by t ids) e.given (the_shape t shape) →
        GivesAt s (items_of t) (the_point t id) (an_entry e.place (the_shape t shape)) }
    ensures point { (s : Source) (t : Tables) (id : ℕ) (c : Context) (place depth : ℕ) (o : Op) → StandsAt s t id c place depth o → the_point t id ≡ at c place depth }
{}

/// The rules of a point give and tell exactly what the rows of the choices do that are seen there by numbers.
pub fn points_by_numbers()
    ensures gives { (s : Source) (t : Tables) → IsNumbering s t → (id : ℕ) (c : Context) (place depth : ℕ) (o : Op) → StandsAt s t id c place depth o →
        (i : Item) → GivesAt s (items_of t) (the_point t id) i ↔ GivenBy s t id c depth o i }
    ensures finds { (s : Source) (t : Tables) → IsNumbering s t → (id : ℕ) (c : Context) (place depth : ℕ) (o : Op) → StandsAt s t id c place depth o →
        (f : FaultText) → FindsAt s (items_of t) c place depth f ↔ HasFault s t id c depth o f }
    ensures unchecks { (s : Source) (t : Tables) → IsNumbering s t → (id : ℕ) (c : Context) (place depth : ℕ) (o : Op) → StandsAt s t id c place depth o →
        UnchecksAt s (items_of t) c place depth ↔ HasUnchecked s t id c depth o }
{}

/// A choice for the variables of a reading is a query, and some query is heavy exactly where some choice is heavy by numbers.
pub fn readings_are_queries()
    ensures query { (s : Source) (t : Tables) → IsNumbering s t → (id : ℕ) (c : Context) (place depth : ℕ) (o : Op) → StandsAt s t id c place depth o →
        (r : SeatReading) (vars : List ℕ) → IsReadBy s t c depth o r vars → (ids : List ℕ) (goals : List Binding) → IsChoice t.graph vars ids goals →
        IsQuery s (items_of t) c place depth (memory_at t goals) }
    ensures heavy { (s : Source) (t : Tables) → IsNumbering s t → (id : ℕ) (c : Context) (place depth : ℕ) (o : Op) → StandsAt s t id c place depth o →
        HasHeavyQuery s (items_of t) c place depth ↔ HasHeavyReading s t id c depth o }
{}

/// Some query of the output is heavy exactly where some shape of a variable that it asks for is heavy by numbers. So it is known whether a point is heavy.
pub fn output_queries()
    ensures heavy { (s : Source) (t : Tables) → IsNumbering s t → (id : ℕ) (c : Context) (place depth : ℕ) (o : Op) → StandsAt s t id c place depth o →
        HasHeavyOutput s (items_of t) c place depth ↔ HasHeavyShape s t id c depth o }
    ensures point { (s : Source) (t : Tables) → IsNumbering s t → (id : ℕ) (c : Context) (place depth : ℕ) (o : Op) → StandsAt s t id c place depth o →
        IsHeavyAt s (items_of t) c place depth ↔ (HasHeavyReading s t id c depth o ⊎ HasHeavyShape s t id c depth o) }
{}

/// The module ends with a shape of a global exactly where an End and the global have numbers, and a choice of the shape is seen there. While contexts aren't finished, an End may lack its number.
pub fn ends_by_numbers()
    ensures ends { (s : Source) (t : Tables) → IsNumbering s t → AreFinished t → (n : ℕ) (shape : Shape) → EndsWith s (items_of t) n shape ↔ HasEnd s t n shape }
    ensures seen { (s : Source) (t : Tables) → IsNumbering s t → (n : ℕ) (shape : Shape) → HasEnd s t n shape → EndsWith s (items_of t) n shape }
    ensures found { (s : Source) (t : Tables) → IsNumbering s t → (n : ℕ) (shape : Shape) → (e : EndsWith s (items_of t) n shape) →
        (id : ℕ) → slice_get t.points id ≡ Some (at main e.place e.depth) → (var : ℕ) → slice_get t.variables var ≡ Some (global n) → HasSeenChoice s t id (var ∷ []) (shape ∷ []) }
    ensures variable { (s : Source) (t : Tables) → IsNumbering s t → (n : ℕ) (shape : Shape) → EndsWith s (items_of t) n shape → Contains t.variables (global n) }
    ensures point { (s : Source) (t : Tables) → IsNumbering s t → AreFinished t → (n : ℕ) (shape : Shape) → (e : EndsWith s (items_of t) n shape) → Contains t.points (at main e.place e.depth) }
{}

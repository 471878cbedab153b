//! Laws of the tables.
ghost use Rattle.std.specs.Prelude.{◌≡◌, ◌≢◌, ◌↔◌, ℕ, ◌+◌, ◌<◌, ◌≤◌, List, Some, length, slice_get};
ghost use Rattle.std.specs.List.{AllPairs, Contains};
ghost use Rattle.graph_walks.specs.Worlds.{FactGives};
ghost use Rattle.graph_walks.specs.Walks.{Visible};
ghost use Rattle.graph_walks.specs.Backs.{Heavy, Seen};
ghost use Rattle.typegraph.specs.declared.goals.Binding.{Binding};
ghost use Rattle.typegraph.specs.Graphs.{IsGiven, item_total};
ghost use Rattle.typegraph.specs.Maps.{look};
ghost use Rattle.goal_solver.specs.Graphs as numbers;
ghost use Rattle.abstract_shapes.specs.Shapes.{Shape};
ghost use Rattle.world_rules.specs.Places.{main, Variable, Point};
ghost use Rattle.world_rules.specs.Sources.{Source};
ghost use Rattle.world_rules.specs.Items.{Item, world_of};
ghost use Rattle.world_rules.specs.Rules.{GivesAt, IsContained, IsLarger, IsLeast};
ghost use Rattle.world_tables.specs.Rounds.{WasQuiet};
ghost use Rattle.world_tables.specs.Tables.{Tables, items_of, memory_at, AreBindings, AreFinished, AreTables, IsNumbering};

/// A query by structure is visible, heavy or seen exactly where the same query by numbers is, also while contexts aren't finished.
pub fn queries_by_numbers()
    ensures visible { (source : Source) (tables : Tables) → IsNumbering source tables → (id : ℕ) (point : Point) → slice_get tables.points id ≡ Some point →
        (goals : List Binding) → AreBindings tables goals →
        Visible (world_of source (items_of tables)) point (memory_at tables goals) ↔ Visible (numbers.world_of tables.graph) id (look goals) }
    ensures heavy { (source : Source) (tables : Tables) → IsNumbering source tables → (id : ℕ) (point : Point) → slice_get tables.points id ≡ Some point →
        (goals : List Binding) → AreBindings tables goals → (budget : ℕ) →
        Heavy (world_of source (items_of tables)) point (memory_at tables goals) budget ↔ Heavy (numbers.world_of tables.graph) id (look goals) budget }
    ensures seen { (source : Source) (tables : Tables) → IsNumbering source tables → (id : ℕ) (point : Point) → slice_get tables.points id ≡ Some point →
        (goals : List Binding) → AreBindings tables goals → (budget : ℕ) →
        Seen (world_of source (items_of tables)) point (memory_at tables goals) budget ↔ Seen (numbers.world_of tables.graph) id (look goals) budget }
{}

/// What some fact gives has numbers, and it gives a variable a shape exactly where a fact of the graph gives the one's number the other's.
pub fn given_by_numbers()
    ensures numbered { (source : Source) (tables : Tables) → IsNumbering source tables → (variable : Variable) (shape : Shape) →
        FactGives (world_of source (items_of tables)) variable shape → Contains tables.variables variable × Contains tables.shapes shape }
    ensures given { (source : Source) (tables : Tables) → IsNumbering source tables → (var id : ℕ) (variable : Variable) (shape : Shape) →
        slice_get tables.variables var ≡ Some variable → slice_get tables.shapes id ≡ Some shape →
        FactGives (world_of source (items_of tables)) variable shape ↔ IsGiven tables.graph var id }
{}

/// No item stands twice, and there are as many as contexts, edges, facts and entries. A list that has all of them and is no longer has nothing else, and where they are more than a limit the least world is larger.
pub fn items_are_counted()
    ensures once { (source : Source) (tables : Tables) → AreTables source tables → AllPairs (λ one other. one ≢ other) (items_of tables) }
    ensures count { (source : Source) (tables : Tables) → AreTables source tables → length (items_of tables) ≡ item_total tables.graph + length tables.entries }
    ensures same { (source : Source) (tables : Tables) → AreTables source tables →
        (more : List Item) → IsContained (items_of tables) more → length more ≤ length (items_of tables) → IsContained more (items_of tables) }
    ensures larger { (source : Source) (tables : Tables) → AreTables source tables → (limit : ℕ) → limit < length (items_of tables) → IsLarger source limit }
{}

/// Where all contexts are finished, the module's among them, and no point gives an item that isn't there, the tables hold the least world; so they do after a round over all points that added nothing.
pub fn a_quiet_world_is_least()
    ensures least { (source : Source) (tables : Tables) → AreTables source tables → AreFinished tables → Contains tables.contexts main →
        ((point : Point) (item : Item) → Contains tables.points point → GivesAt source (items_of tables) point item → Contains (items_of tables) item) → IsLeast source (items_of tables) }
    ensures round { (source : Source) (tables : Tables) → AreTables source tables → AreFinished tables → Contains tables.contexts main →
        ((point : Point) → Contains tables.points point → WasQuiet source (items_of tables) point) → IsLeast source (items_of tables) }
{}

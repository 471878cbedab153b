//! Laws of walks and back states.
ghost use Rattle.std.specs.Prelude.{◌≡◌, ◌↔◌, ℕ, Some, IsTrue};
ghost use Rattle.graph_walks.specs.Worlds.{Memory, Within, World, FactGives, AllGiven};
ghost use Rattle.graph_walks.specs.Walks.{Walk, Visible};
ghost use Rattle.graph_walks.specs.Backs.{Reached, Heavy, RootReached, Seen};
ghost use Rattle.graph_walks.specs.Growth.{IsWithin};
ghost use Rattle.graph_walks.specs.Renamings.{Names, own_names, renamed, HasNames, AreAlike, IsRenamed};

/// The law under the solver: a query is visible exactly where a root with nothing wanted is among the states reached from it.
pub fn visible_is_root_reached<P, V, S>()
    ensures { (w : World P V S) → Discrete V → (point : P) (goals : Memory V S) → Visible w point goals ↔ RootReached w point goals }
{}

/// A memory holds only shapes that some fact gives, and so does each query that is visible.
pub fn never_invents<P, V, S>()
    ensures walks { (w : World P V S) (point : P) (memory : Memory V S) → Walk w point memory → AllGiven w memory }
    ensures queries { (w : World P V S) (point : P) (goals : Memory V S) → Visible w point goals → AllGiven w goals }
{}

/// What is visible, reached, heavy or seen stays so where edges, facts, points and shapes are added.
pub fn stays_as_worlds_grow<P, V, S>()
    ensures visible { (old new : World P V S) → IsWithin old new → (point : P) (goals : Memory V S) → Visible old point goals → Visible new point goals }
    ensures reached { (old new : World P V S) → IsWithin old new → (point : P) (goals : Memory V S) (other : P) (memory : Memory V S) →
        Reached old point goals other memory → Reached new point goals other memory }
    ensures heavy { (old new : World P V S) → IsWithin old new → (point : P) (goals : Memory V S) (budget : ℕ) → Heavy old point goals budget → Heavy new point goals budget }
    ensures seen { (old new : World P V S) → IsWithin old new → (point : P) (goals : Memory V S) (budget : ℕ) → Seen old point goals budget → Seen new point goals budget }
{}

/// A query that is visible, reached, heavy or seen in a world is so under other names in the world that has these names, and the other way round.
pub fn kept_under_other_names<P, V, S, P2, V2, S2>()
    ensures visible { (points : Names P P2) (vars : Names V V2) (shapes : Names S S2) (w : World P V S) (other : World P2 V2 S2) → IsRenamed points vars shapes w other →
        (point : P) (name : P2) (goals : Memory V S) → points.name point ≡ Some name → HasNames vars shapes goals → Visible w point goals ↔ Visible other name (renamed vars shapes goals) }
    ensures reached { (points : Names P P2) (vars : Names V V2) (shapes : Names S S2) (w : World P V S) (other : World P2 V2 S2) → IsRenamed points vars shapes w other →
        (point : P) (name : P2) (goals : Memory V S) → points.name point ≡ Some name → HasNames vars shapes goals →
        (last : P) (last_name : P2) (memory : Memory V S) → points.name last ≡ Some last_name → HasNames vars shapes memory →
        Reached w point goals last memory ↔ Reached other name (renamed vars shapes goals) last_name (renamed vars shapes memory) }
    ensures heavy { (points : Names P P2) (vars : Names V V2) (shapes : Names S S2) (w : World P V S) (other : World P2 V2 S2) → IsRenamed points vars shapes w other →
        (point : P) (name : P2) (goals : Memory V S) (budget : ℕ) → points.name point ≡ Some name → HasNames vars shapes goals →
        Heavy w point goals budget ↔ Heavy other name (renamed vars shapes goals) budget }
    ensures seen { (points : Names P P2) (vars : Names V V2) (shapes : Names S S2) (w : World P V S) (other : World P2 V2 S2) → IsRenamed points vars shapes w other →
        (point : P) (name : P2) (goals : Memory V S) (budget : ℕ) → points.name point ≡ Some name → HasNames vars shapes goals →
        Seen w point goals budget ↔ Seen other name (renamed vars shapes goals) budget }
{}

/// What has all of a world that has all of another has all of that.
pub fn growth_goes_on<P, V, S>()
    ensures { (old new newer : World P V S) → IsWithin old new → IsWithin new newer → IsWithin old newer }
{}

/// What is seen has each of its pairs given by some fact.
pub fn seen_is_given<P, V, S>()
    ensures { (w : World P V S) (point : P) (goals : Memory V S) (budget : ℕ) → Seen w point goals budget → AllGiven w goals }
{}

/// A world is itself under its own names.
pub fn own_names_rename<P, V, S>()
    ensures { (w : World P V S) → IsRenamed own_names own_names own_names w w }
{}

/// Two worlds are the same under other names where each edge, fact, root, truth and target of the one has its like in the other.
pub fn alike_are_renamed<P, V, S, P2, V2, S2>()
    ensures { (points : Names P P2) (vars : Names V V2) (shapes : Names S S2) (w : World P V S) (other : World P2 V2 S2) → AreAlike points vars shapes w other → IsRenamed points vars shapes w other }
{}

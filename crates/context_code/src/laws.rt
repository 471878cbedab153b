//! Laws of contexts, seats and readings.
ghost use Rattle.std.specs.Prelude.{◌≡◌, ℕ, List, Some, map, slice_get};
ghost use Rattle.flow_graph.specs.declared.context.Context.{Context as ContextRow};
ghost use Rattle.stack_code.specs.declared.op.Op.{Op};
ghost use Rattle.program_tables.specs.Programs.{Compiled};
ghost use Rattle.world_rules.specs.declared.seat.OwnedSeat.{OwnedSeat};
ghost use Rattle.world_rules.specs.Places.{Context, op_at};
ghost use Rattle.world_rules.specs.Sources.{Source};
ghost use Rattle.world_rules.specs.Items.{variables};
ghost use Rattle.world_rules.specs.Rules.{readings_at};
ghost use Rattle.world_tables.specs.declared.spot.PointSpot.{PointSpot};
ghost use Rattle.world_tables.specs.Rows.{WorldRows, contexts_of, context_of, the_context, variable_of, IsKept};
ghost use Rattle.context_code.specs.Readings.{readings_of};
ghost use Rattle.context_code.specs.Seats.{owned_spots};
ghost use Rattle.context_code.specs.Sources.{IsSourceOf};

/// Each context is what its row tells, where the contexts that it is called from are the world's.
pub fn contexts_are_told_by_rows()
    ensures { (rows : WorldRows) → IsKept rows → (id : ℕ) (row : ContextRow) → slice_get rows.graph.flow.contexts id ≡ Some row →
        the_context (contexts_of rows) id ≡ context_of (contexts_of rows) rows.points row }
{}

/// The spots of seats are the variables that the rules read.
pub fn spots_are_variables()
    ensures { (contexts : List Context) (context : ℕ) (seats : List OwnedSeat) →
        map (variable_of contexts) (owned_spots context seats) ≡ variables (the_context contexts context) seats }
{}

/// The readings at a point are those that the rules of a source of the program have there.
pub fn readings_are_the_sources()
    ensures { (s : Source) (compiled : Compiled) → IsSourceOf s compiled → (contexts : List Context) (spot : PointSpot) (o : Op) →
        op_at compiled.program (the_context contexts spot.context) spot.place ≡ Some o →
        readings_of compiled contexts spot ≡ readings_at s (the_context contexts spot.context) spot.depth o }
{}

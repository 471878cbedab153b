//! What closed worlds tell of runs.
ghost use Rattle.std.specs.Prelude.{◌≡◌, ◌⊎◌, ℕ, pos, Option, Some, List, [], ◌∷◌, map, slice_get};
ghost use Rattle.std.specs.List.{All, Contains};
ghost use Rattle.py_tokens.specs.TokenList.{TokenList};
ghost use Rattle.py_tree.specs.Tree.{Module};
ghost use Rattle.type_terms.specs.Stubs.{Name, Stub};
ghost use Rattle.scope_rules.specs.Scoped.{scoped};
ghost use Rattle.world_rules.specs.Items.{Item};
ghost use Rattle.world_rules.specs.Rules.{IsClosed};
ghost use Rattle.world_rules.specs.declared.finding.Finding.{Finding};
ghost use Rattle.world_rules.specs.Findings.{AreFindings, AreUnchecked};
ghost use Rattle.world_rules.specs.Stubs.{IsStubOf};
ghost use Rattle.py_meaning.specs.Belongs.{Belongs};
ghost use Rattle.py_meaning.specs.Events.{FaultKind, Holder, held, fault};
ghost use Rattle.py_meaning.specs.Programs.{program};
ghost use Rattle.py_meaning.specs.Runs.{run};
ghost use Rattle.py_meaning.specs.Values.{Value, whole};
ghost use Rattle.world_covering.specs.Covering.{IsCovered};
ghost use Rattle.world_covering.specs.OneLine.{one_line, its_source, its_world};
ghost use Rattle.world_covering.specs.RowLaws.{RowsHold};
ghost use Rattle.world_covering.specs.Modules.{IsPlainModule, Settings, source_of};

use grammar_laws::laws::trees_are_well_formed;

/// Each operation on values that stand for the shapes that are read keeps to the row of its rule.
pub fn rows_hold()
    ensures { RowsHold }
{}

/// Each closed world covers every run of its module, for the modules of the grammar that break no rule and have the covered forms alone: each fault stands on a line with a finding or on an unchecked line, and what a name holds at the end stands for a shape that it is seen to have there, and belongs to its type in the last heap. So each value belongs to the type of its name in the world's stub, and each fault's line is in the world's report.
pub fn runs_are_covered()
    ensures events { (text : List ℕ) (t : TokenList) (m : Module) (stubs : List (List ℕ × Stub)) (settings : Settings) (items : List Item) (turns : ℕ) (choices : List ℕ) →
        IsPlainModule text t m → IsClosed (source_of m stubs settings) items →
        All (IsCovered (source_of m stubs settings) items (program m stubs) (run m stubs turns choices []).heap) (run m stubs turns choices []).events }
    ensures stubs { (text : List ℕ) (t : TokenList) (m : Module) (stubs : List (List ℕ × Stub)) (settings : Settings) (items : List Item) (turns : ℕ) (choices : List ℕ) →
        IsPlainModule text t m → IsClosed (source_of m stubs settings) items →
        (stub : Stub) → IsStubOf (source_of m stubs settings) items stub → (place name : ℕ) (v : Value) (row : Name) → slice_get (scoped m).printed place ≡ Some name → slice_get stub.names place ≡ Some row →
        Contains (run m stubs turns choices []).events (held name v) → Belongs (program m stubs) (run m stubs turns choices []).heap row.term v }
    ensures report { (text : List ℕ) (t : TokenList) (m : Module) (stubs : List (List ℕ × Stub)) (settings : Settings) (items : List Item) (turns : ℕ) (choices : List ℕ) →
        IsPlainModule text t m → IsClosed (source_of m stubs settings) items →
        (findings : List Finding) (unchecked : List ℕ) → AreFindings (source_of m stubs settings) items findings → AreUnchecked (source_of m stubs settings) items unchecked →
        (line : ℕ) (kind : FaultKind) (holder : Holder) (attribute : Option ℕ) → Contains (run m stubs turns choices []).events (fault line kind holder attribute) →
        Contains (map (λ f. f.line) findings) line ⊎ Contains unchecked line }
{
    trees_are_well_formed();
}

/// The world of `x = 1` is closed, and its runs are covered with nothing left to assume; one tells that `x` holds 1.
pub fn a_world_is_closed()
    ensures closed { IsClosed its_source its_world }
    ensures covered { (turns : ℕ) (choices : List ℕ) → All (IsCovered its_source its_world (program one_line []) (run one_line [] turns choices []).heap) (run one_line [] turns choices []).events }
    ensures told { (run one_line [] 0 [] []).events ≡ held 0 (whole (pos 1)) ∷ [] }
{}

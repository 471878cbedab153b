//! What holds of the runs and the code of every module.
ghost use Rattle.std.specs.Prelude.{◌≡◌, ℕ, true, false, Some, None, List, [], option_map, slice_get};
ghost use Rattle.py_tree.specs.Tree.{Module};
ghost use Rattle.type_terms.specs.Stubs.{Stub};
ghost use Rattle.scope_rules.specs.Faults.{faults};
ghost use Rattle.scope_rules.specs.Jumps.{jumps};
ghost use Rattle.stack_code.specs.Depths.{HasDepth};
ghost use Rattle.tree_code.specs.Programs.{Defined, functions, in_module, module_code, statements_of};
ghost use Rattle.tree_code.specs.Statements.{body_code};
ghost use Rattle.py_meaning.specs.Actions.{OutsideCall};
ghost use Rattle.py_meaning.specs.Programs.{program, fun_at};
ghost use Rattle.py_meaning.specs.Runs.{run, ended, raised_out};
ghost use Rattle.py_meaning.specs.Values.{Value};
ghost use Rattle.tree_covering.specs.Functions.{IsRead, row_of};
ghost use Rattle.tree_covering.specs.Leaving.{MayStand};
ghost use Rattle.tree_covering.specs.Reached.{RaisesTo};

/// A function has one number: a run calls it, the program has its code and the scopes have its locals under the same.
pub fn functions_are_numbered_alike()
    ensures each { (m : Module) (stubs : List (List ℕ × Stub)) (number : ℕ) (d : Defined) → slice_get (functions m.body) number ≡ Some d → IsRead m stubs number d }
    ensures no_others { (m : Module) (stubs : List (List ℕ × Stub)) (number : ℕ) → fun_at (program m stubs) number ≡ option_map row_of (slice_get (functions m.body) number) }
{}

/// In a module that breaks no rule each `break` and `continue` stands in a loop, and each `return` in a function.
pub fn jumps_stand_where_they_may()
    ensures modules { (m : Module) → faults m ≡ [] → MayStand false (jumps false m.body) }
    ensures functions { (m : Module) (number : ℕ) (d : Defined) → faults m ≡ [] → slice_get (functions m.body) number ≡ Some d → MayStand true (jumps false (statements_of d.fun)) }
{}

/// A run goes along the code of its module, whatever it calls: where it ends the code has come to its end over an empty stack, and where an exception leaves it the code has come to an instruction that may raise, with no handler around it.
pub fn runs_follow_their_code()
    ensures ends { (error : ℕ) (m : Module) (stubs : List (List ℕ × Stub)) (n : ℕ) (choices : List ℕ) (calls : List OutsideCall) → faults m ≡ [] →
        (run m stubs n choices calls).ending ≡ ended → HasDepth (module_code error m.body) (body_code (in_module error) m.body).size 0 }
    ensures leaves { (error : ℕ) (m : Module) (stubs : List (List ℕ × Stub)) (n : ℕ) (choices : List ℕ) (calls : List OutsideCall) (v : Value) → faults m ≡ [] →
        (run m stubs n choices calls).ending ≡ raised_out v → RaisesTo (module_code error m.body) None }
{}

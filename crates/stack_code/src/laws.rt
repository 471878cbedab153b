//! Laws of the definitions, on functions that do nothing.
ghost use Rattle.std.specs.Prelude.{ℕ, ◌↔◌};
ghost use Rattle.std.specs.List.{Contains};
ghost use Rattle.stack_code.specs.declared.code.Code.{Code};
ghost use Rattle.stack_code.specs.Blocks.{blocks_of};
ghost use Rattle.stack_code.specs.Runs.{IsMaximalRun};

/// The blocks of code are its maximal runs.
pub fn blocks_are_maximal_runs()
    ensures { (code : Code) (first past : ℕ) → Contains (blocks_of code) (first, past) ↔ IsMaximalRun code first past }
{}

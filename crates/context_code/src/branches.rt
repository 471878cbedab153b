//! What an instruction asks of the top of the stack.
ghost use Rattle.std.specs.Prelude.{◌≡◌, option_map};
ghost use Rattle.std.specs.Option.{option_and_then};
ghost use Rattle.world_rules.specs.Branches.{branch, fall_test, is_call};
ghost use Rattle.world_tables.specs.Tables.{Tables, test_at};
ghost use Rattle.context_code.specs.Tests.{IsPlain};

use flow_graph::Test;
use stack_code::Op;

/// What is asked where it jumps.
pub fn jump_test(op: &Op) -> Option<Test>
    ensures plain { IsPlain result }
    ensures test { (tables : Tables) → option_map (test_at tables) result ≡ option_and_then (λ b. b.on_jump) (branch op.now) }
{
    match op {
        Op::JumpIfFalse(_) | Op::JumpIfFalseKeep(_) => Some(Test::MayBeFalse),
        Op::JumpIfTrue(_) | Op::JumpIfTrueKeep(_) => Some(Test::MayBeTrue),
        _ => None,
    }
}

/// What is asked where it goes on to the next place.
pub fn fall_test(op: &Op) -> Option<Test>
    ensures plain { IsPlain result }
    ensures test { (tables : Tables) → option_map (test_at tables) result ≡ fall_test op.now }
{
    match op {
        Op::JumpIfFalse(_) | Op::JumpIfFalseKeep(_) => Some(Test::MayBeTrue),
        Op::JumpIfTrue(_) | Op::JumpIfTrueKeep(_) => Some(Test::MayBeFalse),
        _ => None,
    }
}

/// Whether the rules of a call say how it goes on.
pub fn is_call(op: &Op) -> bool
    ensures { result ≡ is_call op.now }
{
    matches!(op, Op::Call(_, _, _) | Op::MakeRaised(_))
}

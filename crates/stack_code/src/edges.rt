//! Where an instruction leads.
ghost use Rattle.std.specs.Prelude.{◌≡◌};
ghost use Rattle.stack_code.specs.Effects.{falls, goal_of, taken_at_goal, may_raise};

use crate::Op;

impl Op {
    /// Whether it may go on to the next place.
    pub fn falls(&self) -> bool
        ensures { result ≡ falls self.now }
    {
        !matches!(
            self,
            Op::Jump(_) | Op::Return | Op::Raise | Op::Reraise | Op::End
        )
    }

    /// The place that it may jump to.
    pub fn goal(&self) -> Option<u32>
        ensures { result ≡ goal_of self.now }
    {
        match self {
            Op::Jump(goal) | Op::JumpIfFalse(goal) | Op::JumpIfTrue(goal) => Some(*goal),
            Op::JumpIfFalseKeep(goal) | Op::JumpIfTrueKeep(goal) | Op::ForNext(goal) => Some(*goal),
            _ => None,
        }
    }

    /// How many slots it takes off where it jumps.
    pub fn taken_at_goal(&self) -> u32
        ensures { result ≡ taken_at_goal self.now }
    {
        match self {
            Op::JumpIfFalse(_) | Op::JumpIfTrue(_) | Op::ForNext(_) => 1,
            _ => 0,
        }
    }

    /// Whether it may raise.
    pub fn may_raise(&self) -> bool
        ensures { result ≡ may_raise self.now }
    {
        match self {
            Op::LoadLocal(_)
            | Op::LoadName(_)
            | Op::Unary(_)
            | Op::Binary(_, _)
            | Op::InPlace(_, _)
            | Op::Compare(_) => true,
            Op::Attr(_)
            | Op::Super(_)
            | Op::StoreAttr(_)
            | Op::Item
            | Op::StoreItem
            | Op::Slice(_) => true,
            Op::ForNext(_)
            | Op::Part(_, _)
            | Op::Call(_, _, _)
            | Op::Import(_)
            | Op::ImportFrom(_, _) => true,
            Op::MakeRaised(_) | Op::Raise | Op::Reraise | Op::MatchError => true,
            _ => false,
        }
    }
}

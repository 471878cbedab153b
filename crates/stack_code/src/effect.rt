//! What an instruction does to the stack.
ghost use Rattle.std.specs.Prelude.{◌≡◌};
ghost use Rattle.stack_code.specs.Effects.{effect_of};

use crate::Op;

/// How many slots have to be there, and how many are taken off and then pushed on the way to the next place.
#[derive(Clone, Copy, Debug, PartialEq, Eq)]
pub struct Effect {
    pub needs: usize,
    pub takes: usize,
    pub pushes: usize,
}

// Takes slots off and pushes others.
fn turns(takes: usize, pushes: usize) -> Effect
    ensures { (result.needs ≡ takes) × (result.takes ≡ takes) × (result.pushes ≡ pushes) }
{
    Effect {
        needs: takes,
        takes,
        pushes,
    }
}

// Pushes one slot, and leaves those that it needs.
fn reads(needs: usize) -> Effect
    ensures { (result.needs ≡ needs) × (result.takes ≡ 0) × (result.pushes ≡ 1) }
{
    Effect {
        needs,
        takes: 0,
        pushes: 1,
    }
}

impl Op {
    /// What it does to the stack. Where it goes on to no next place, `takes` and `pushes` say nothing.
    pub fn effect(&self) -> Effect
        ensures { result ≡ effect_of self.now }
    {
        match self {
            Op::Const(_) | Op::Fun(_) | Op::Class(_) | Op::LoadLocal(_) => turns(0, 1),
            Op::LoadName(_) | Op::Super(_) | Op::Import(_) | Op::ImportFrom(_, _) | Op::Caught =>
                turns(0, 1),
            Op::StoreLocal(_) | Op::StoreName(_) | Op::StoreGlobal(_) | Op::StoreMember(_, _) =>
                turns(1, 0),
            Op::Pop
            | Op::JumpIfFalse(_)
            | Op::JumpIfTrue(_)
            | Op::JumpIfFalseKeep(_)
            | Op::JumpIfTrueKeep(_) => turns(1, 0),
            Op::Return | Op::Raise => turns(1, 0),
            Op::Param(_)
            | Op::ForgetLocal(_)
            | Op::ForgetName(_)
            | Op::ForgetGlobal(_)
            | Op::Jump(_)
            | Op::Reraise
            | Op::End => turns(0, 0),
            Op::Unary(_) | Op::Not | Op::Attr(_) | Op::MakeRaised(_) => turns(1, 1),
            Op::Binary(_, _) | Op::InPlace(_, _) | Op::Compare(_) | Op::Item => turns(2, 1),
            Op::StoreAttr(_) => turns(2, 0),
            Op::StoreItem => turns(3, 0),
            Op::Slice(_) => turns(4, 1),
            Op::NewTuple(parts, _) | Op::NewList(parts, _) => turns(*parts as usize, 1),
            Op::NewDict(pairs, _) => turns(2 * *pairs as usize, 1),
            Op::Call(positionals, keywords, _) => turns(
                *positionals as usize + keywords.as_slice().len() + 1,
                1,
            ),
            Op::Pick(below) => reads(*below as usize + 1),
            Op::ForNext(_) => reads(1),
            Op::Part(part, parts) => reads((parts.saturating_sub(*part) as usize).max(1)),
            Op::MatchError => Effect {
                needs: 2,
                takes: 1,
                pushes: 1,
            },
        }
    }
}

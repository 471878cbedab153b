//! The rules of `break`, `continue` and `return`.
ghost use Rattle.std.specs.Prelude.{◌≡◌, ◌++◌, OnOk};
ghost use Rattle.scope_rules.specs.Jumps as jumps;
ghost use Rattle.scope_rules.specs.Rules as spec;

use crate::fault::fault_if;
use place_ids::Sequence;
use scope_rules::{Fault, Jump, JumpSort, Rule};
use std::alloc::AllocError;

fn is_exit(sort: JumpSort) -> bool
    ensures { result ≡ jumps.is_exit sort }
{
    matches!(sort, JumpSort::Exit)
}

fn is_return(sort: JumpSort) -> bool
    ensures { result ≡ jumps.is_return sort }
{
    !matches!(sort, JumpSort::Exit)
}

fn returns_value(init: bool, sort: JumpSort) -> bool
    ensures { result ≡ spec.returns_value init sort }
{
    init && matches!(sort, JumpSort::ReturnValue)
}

#[tactic(auto, using(std::proofs::Common::append_assoc))]
pub(crate) fn breaks_outside(jumps: &[Jump], out: &mut Sequence<Fault>) -> Result<(), AllocError>
    ensures { OnOk result (out.new ≡ out.old ++ spec.breaks_outside jumps.now) }
{
    for j in jumps {
        fault_if(is_exit(j.sort), Rule::BreakOutsideLoop, j.line, out)?;
    }
    Ok(())
}

#[tactic(auto, using(std::proofs::Common::append_assoc))]
pub(crate) fn returns_outside(jumps: &[Jump], out: &mut Sequence<Fault>) -> Result<(), AllocError>
    ensures { OnOk result (out.new ≡ out.old ++ spec.returns_outside jumps.now) }
{
    for j in jumps {
        fault_if(is_return(j.sort), Rule::ReturnOutside, j.line, out)?;
    }
    Ok(())
}

#[tactic(auto, using(std::proofs::Common::append_assoc))]
pub(crate) fn init_returns(
    init: bool,
    jumps: &[Jump],
    out: &mut Sequence<Fault>,
) -> Result<(), AllocError>
    ensures { OnOk result (out.new ≡ out.old ++ spec.init_returns init jumps.now) }
{
    for j in jumps {
        fault_if(returns_value(init, j.sort), Rule::InitReturns, j.line, out)?;
    }
    Ok(())
}

//! The faults of a module, and the first of them.
ghost use Rattle.std.specs.Prelude.{◌≡◌, ◌++◌, OnOk};
ghost use Rattle.scope_rules.specs.Faults as spec;
ghost use Rattle.scope_rules.specs.Answers as answers;
ghost use Rattle.scope_rules.specs.Rules as rules;

use place_ids::{Id, LineNo, Sequence};
use scope_rules::{Fault, Rule, ScopeFault};
use std::alloc::AllocError;

/// Puts a fault at the end in one case alone.
pub(crate) fn fault_if(
    broken: bool,
    rule: Rule,
    line: LineNo,
    out: &mut Sequence<Fault>,
) -> Result<(), AllocError>
    ensures { OnOk result (out.new ≡ out.old ++ rules.fault_if broken rule line) }
{
    if broken {
        return out.push(Fault { rule, line });
    }
    Ok(())
}

fn number(rule: Rule) -> u32
    ensures { result ≡ spec.number rule }
{
    match rule {
        Rule::Rebound => 1,
        Rule::BuiltinBound => 2,
        Rule::BaseUnknown => 3,
        Rule::DuplicateParam => 4,
        Rule::BreakOutsideLoop => 5,
        Rule::ReturnOutside => 6,
        Rule::InitReturns => 7,
        Rule::SuperUse => 8,
        Rule::MethodRule => 9,
    }
}

fn is_before(fault: &Fault, other: &Fault) -> bool
    ensures { result ≡ spec.is_before fault.now other.now }
{
    let line = fault.line.number();
    let other_line = other.line.number();
    line < other_line || (line == other_line && number(fault.rule) < number(other.rule))
}

fn sooner(best: Option<Fault>, fault: Fault) -> Fault
    ensures { result ≡ spec.sooner best fault }
{
    match best {
        Some(best) => {
            if is_before(&fault, &best) {
                fault
            } else {
                best
            }
        }
        None => fault,
    }
}

/// The fault that is first by its line, and at one line by the number of its rule.
pub(crate) fn first(faults: &[Fault]) -> Option<Fault>
    ensures { result ≡ spec.first faults.now }
{
    let mut best = None;
    for fault in faults {
        best = Some(sooner(best, *fault));
    }
    best
}

/// What is answered for a fault.
pub(crate) fn told(fault: Fault) -> ScopeFault
    ensures { result ≡ answers.told fault }
{
    match fault.rule {
        Rule::Rebound => ScopeFault::Rebound(fault.line),
        Rule::BuiltinBound => ScopeFault::BuiltinBound(fault.line),
        Rule::BaseUnknown => ScopeFault::BaseUnknown(fault.line),
        Rule::DuplicateParam => ScopeFault::DuplicateParam(fault.line),
        Rule::BreakOutsideLoop => ScopeFault::BreakOutsideLoop(fault.line),
        Rule::ReturnOutside => ScopeFault::ReturnOutside(fault.line),
        Rule::InitReturns => ScopeFault::InitReturns(fault.line),
        Rule::SuperUse => ScopeFault::SuperUse(fault.line),
        Rule::MethodRule => ScopeFault::MethodRule(fault.line),
    }
}

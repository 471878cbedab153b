//! How a report names faults, and the lines that they are on.
ghost use Rattle.std.specs.Prelude.{◌≡◌};
ghost use Rattle.py_infer.specs.FaultNames as spec;

use place_ids::Id;
use py_tokens::{Form, TokenFault};
use scope_rules::ScopeFault;

/// The name of a fault of a text.
pub fn fault_name(fault: TokenFault) -> &'static str
    ensures { result.now ≡ spec.fault_name fault }
{
    match fault {
        TokenFault::BadIndent(_) => "bad-indent",
        TokenFault::MixedTabs(_) => "mixed-tabs",
        TokenFault::BadCharacter(_) => "bad-character",
        TokenFault::OpenString(_) => "open-string",
        TokenFault::OpenBracket(_) => "open-bracket",
        TokenFault::BadNumber(_) => "bad-number",
        TokenFault::WideInt(_) => "wide-int",
        TokenFault::NotNfkc(_) => "not-nfkc",
        TokenFault::Prefix(_) => "prefix",
        TokenFault::Memory => "",
    }
}

pub fn fault_line(fault: TokenFault) -> u32
    ensures { result ≡ spec.fault_line fault }
{
    match fault {
        TokenFault::BadIndent(span)
        | TokenFault::MixedTabs(span)
        | TokenFault::BadCharacter(span)
        | TokenFault::OpenString(span)
        | TokenFault::OpenBracket(span)
        | TokenFault::BadNumber(span)
        | TokenFault::WideInt(span)
        | TokenFault::NotNfkc(span)
        | TokenFault::Prefix(span) => span.line,
        TokenFault::Memory => 0,
    }
}

/// The name of a form that is outside the profile.
pub fn form_name(form: Form) -> &'static str
    ensures { result.now ≡ spec.form_name form }
{
    match form {
        Form::Lambda => "lambda",
        Form::Yield => "yield",
        Form::Async => "async",
        Form::Await => "await",
        Form::With => "with",
        Form::Finally => "finally",
        Form::Del => "del",
        Form::Nonlocal => "nonlocal",
        Form::Global => "global",
        Form::NestedFunction => "nested-function",
        Form::NestedClass => "nested-class",
        Form::Decorator => "decorator",
        Form::Comprehension => "comprehension",
        Form::Walrus => "walrus",
        Form::StarParam => "star-param",
        Form::StarArg => "star-arg",
        Form::LoopElse => "loop-else",
        Form::ChainedCompare => "chained-compare",
        Form::Complex => "complex",
        Form::MultipleBases => "multiple-bases",
        Form::ClassKeyword => "class-keyword",
        Form::SpecialMethod => "special-method",
        Form::SpecialAttribute => "special-attribute",
        Form::PrivateName => "private-name",
        Form::Default => "default",
        Form::SuperForm => "super-form",
        Form::SetDisplay => "set-display",
        Form::DottedImport => "dotted-import",
        Form::RelativeImport => "relative-import",
        Form::StarImport => "star-import",
        Form::SliceStore => "slice-store",
        Form::Ellipsis => "ellipsis",
        Form::ClassBody => "class-body",
    }
}

/// The name of a static rule.
pub fn scope_name(fault: &ScopeFault) -> &'static str
    ensures { result.now ≡ spec.scope_name fault.now }
{
    match fault {
        ScopeFault::Rebound(_) => "rebound",
        ScopeFault::BuiltinBound(_) => "builtin-bound",
        ScopeFault::BaseUnknown(_) => "base-unknown",
        ScopeFault::DuplicateParam(_) => "duplicate-param",
        ScopeFault::BreakOutsideLoop(_) => "break-outside-loop",
        ScopeFault::ReturnOutside(_) => "return-outside",
        ScopeFault::InitReturns(_) => "init-returns",
        ScopeFault::SuperUse(_) => "super-use",
        ScopeFault::MethodRule(_) => "method-rule",
        ScopeFault::Memory => "",
    }
}

pub fn scope_line(fault: &ScopeFault) -> u32
    ensures { result ≡ spec.scope_line fault.now }
{
    match fault {
        ScopeFault::Rebound(line)
        | ScopeFault::BuiltinBound(line)
        | ScopeFault::BaseUnknown(line)
        | ScopeFault::DuplicateParam(line)
        | ScopeFault::BreakOutsideLoop(line)
        | ScopeFault::ReturnOutside(line)
        | ScopeFault::InitReturns(line)
        | ScopeFault::SuperUse(line)
        | ScopeFault::MethodRule(line) => line.number(),
        ScopeFault::Memory => 0,
    }
}

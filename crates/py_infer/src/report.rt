//! What is said of a file that is refused, after its name.
ghost use Rattle.std.specs.Prelude.{◌≡◌, ◌≢◌, ◌++◌, codes, IfOk};
ghost use Rattle.std.specs.Fmt.{decimal};
ghost use Rattle.py_infer.specs.FaultNames.{fault_line, fault_name, form_name, parse_line, parse_name, scope_line, scope_name};
ghost use Rattle.py_infer.specs.Reports.{line_report, whole_report};

use crate::fault_names::{fault_line, fault_name, form_name, scope_line, scope_name};
use place_ids::Text;
use py_parse::ParseFault;
use py_tokens::{Form, TokenFault};
use scope_rules::ScopeFault;
use std::alloc::{AllocError, Global};

/// A reason that holds of the whole file.
pub fn whole_report(alloc: Global, reason: &str) -> Result<Text, AllocError>
    ensures { IfOk result (λ report. report ≡ whole_report reason.now) }
{
    let mut report = Text::new(alloc);
    report.push(b": refused: ".as_slice())?;
    report.push(reason.as_bytes())?;
    report.push(b"\n".as_slice())?;
    Ok(report)
}

/// A reason that holds of a line.
pub fn line_report(alloc: Global, line: u32, reason: &str) -> Result<Text, AllocError>
    ensures { IfOk result (λ report. report ≡ line_report line reason.now) }
{
    let mut report = Text::new(alloc);
    report.push(b":".as_slice())?;
    report.push(line.to_string(alloc)?.as_bytes())?;
    report.push(b": refused: ".as_slice())?;
    report.push(reason.as_bytes())?;
    report.push(b"\n".as_slice())?;
    Ok(report)
}

/// Bytes that are no text, of which the longest front that is one has this length.
pub fn not_utf8_report(alloc: Global, valid: usize) -> Result<Text, AllocError>
    ensures { IfOk result (λ report. report ≡ whole_report (codes "not-utf8 at " ++ decimal valid)) }
{
    let mut report = Text::new(alloc);
    report.push(b": refused: not-utf8 at ".as_slice())?;
    report.push(valid.to_string(alloc)?.as_bytes())?;
    report.push(b"\n".as_slice())?;
    Ok(report)
}

// A form that is outside the profile.
fn form_report(alloc: Global, line: u32, form: Form) -> Result<Text, AllocError>
    ensures { IfOk result (λ report. report ≡ line_report line (codes "out-of-profile " ++ form_name form)) }
{
    let mut report = Text::new(alloc);
    report.push(b":".as_slice())?;
    report.push(line.to_string(alloc)?.as_bytes())?;
    report.push(b": refused: out-of-profile ".as_slice())?;
    report.push(form_name(form).as_bytes())?;
    report.push(b"\n".as_slice())?;
    Ok(report)
}

/// A fault of a text. Want of memory is passed on.
pub fn fault_report(alloc: Global, fault: TokenFault) -> Result<Text, AllocError>
    ensures found { IfOk result (λ report. fault ≢ TokenFault.Memory) }
    ensures said { IfOk result (λ report. report ≡ line_report (fault_line fault) (fault_name fault)) }
{
    match fault {
        TokenFault::Memory => Err(AllocError),
        _ => line_report(alloc, fault_line(fault), fault_name(fault)),
    }
}

/// Why tokens have no tree. Want of memory is passed on.
pub fn parse_report(alloc: Global, fault: ParseFault) -> Result<Text, AllocError>
    ensures found { IfOk result (λ report. fault ≢ ParseFault.Memory) }
    ensures said { IfOk result (λ report. report ≡ line_report (parse_line fault) (parse_name fault)) }
{
    match fault {
        ParseFault::Unexpected(span) => line_report(alloc, span.line, "unexpected-token"),
        ParseFault::OutOfProfile(form, span) => form_report(alloc, span.line, form),
        ParseFault::TooDeep(span) => line_report(alloc, span.line, "too-deep"),
        ParseFault::Memory => Err(AllocError),
    }
}

/// The static rule that a module breaks first. Want of memory is passed on.
pub fn scope_report(alloc: Global, fault: &ScopeFault) -> Result<Text, AllocError>
    ensures found { IfOk result (λ report. fault.now ≢ ScopeFault.Memory) }
    ensures said { IfOk result (λ report. report ≡ line_report (scope_line fault.now) (scope_name fault.now)) }
{
    match fault {
        ScopeFault::Memory => Err(AllocError),
        _ => line_report(alloc, scope_line(fault), scope_name(fault)),
    }
}

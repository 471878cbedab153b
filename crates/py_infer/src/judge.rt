//! What a file's bytes ask for.
ghost use Rattle.std.specs.Prelude.{◌≡◌, ◌≤◌, None, length, option_map, IfOk, MatchResult};
ghost use Rattle.py_tree.specs.View.{module_view};
ghost use Rattle.scope_rules.specs.Answers.{told};
ghost use Rattle.scope_rules.specs.Faults.{faults, first};
ghost use Rattle.py_infer.specs.Judging.{IsStubOf, IsStubOfTokens, IsStubOfTree};
ghost use Rattle.py_infer.specs.Reports.{Refuses, RefusesTokens, RefusesTree};

use crate::report::{fault_report, line_report, not_utf8_report, parse_report, scope_report};
use crate::typing::types_of;
use built_forms::first_unbuilt;
use place_ids::{Id, Text};
use py_parse::parse;
use py_scope::scope;
use py_tokens::{Tokens, tokens};
use py_tree::Module;
use pyi_write::stub_text;
use scope_rules::ScopeFault;
use std::alloc::{AllocError, Global};

/// The stub of a file of at most 262144 bytes, or what is said of it after its name where it is refused.
pub fn judged(alloc: Global, bytes: &[u8]) -> Result<Result<Text, Text>, AllocError>
    requires { length bytes.now ≤ 262144 }
    ensures { IfOk result (λ found. MatchResult found (IsStubOf bytes.now) (Refuses bytes.now)) }
{
    let text = match str::from_utf8(bytes) {
        Ok(text) => text,
        Err(error) => return Ok(Err(not_utf8_report(alloc, error.valid_up_to())?)),
    };
    let tokens = match tokens(alloc, text) {
        Ok(tokens) => tokens,
        Err(fault) => return Ok(Err(fault_report(alloc, fault)?)),
    };
    judged_tokens(alloc, &tokens)
}

// The same of the tokens of a text.
fn judged_tokens(alloc: Global, tokens: &Tokens) -> Result<Result<Text, Text>, AllocError>
    ensures { IfOk result (λ found. MatchResult found (IsStubOfTokens tokens.now) (RefusesTokens tokens.now)) }
{
    match parse(alloc, tokens) {
        Ok(module) => judged_tree(alloc, &module),
        Err(fault) => Ok(Err(parse_report(alloc, fault)?)),
    }
}

// The static rule that a module breaks first.
fn broken_rule(alloc: Global, module: &Module) -> Result<Option<ScopeFault>, AllocError>
    ensures { IfOk result (λ rule. rule ≡ option_map told (first (faults (module_view «module».now)))) }
{
    match scope(alloc, module).err() {
        Some(ScopeFault::Memory) => Err(AllocError),
        fault => Ok(fault),
    }
}

// The same of the tree of tokens.
fn judged_tree(alloc: Global, module: &Module) -> Result<Result<Text, Text>, AllocError>
    ensures { IfOk result (λ found. MatchResult found (IsStubOfTree (module_view «module».now)) (RefusesTree (module_view «module».now))) }
{
    match broken_rule(alloc, module)? {
        Some(fault) => Ok(Err(scope_report(alloc, &fault)?)),
        None => judged_forms(alloc, module),
    }
}

// The same of a tree that keeps the static rules.
fn judged_forms(alloc: Global, module: &Module) -> Result<Result<Text, Text>, AllocError>
    requires { first (faults (module_view «module».now)) ≡ None }
    ensures { IfOk result (λ found. MatchResult found (IsStubOfTree (module_view «module».now)) (RefusesTree (module_view «module».now))) }
{
    match first_unbuilt(alloc, module)? {
        Some(line) => Ok(Err(line_report(alloc, line.number(), "out-of-profile later")?)),
        None => {
            let types = types_of(alloc, module)?;
            let stub = types.stub()?;
            Ok(Ok(stub_text(alloc, &stub)?))
        }
    }
}

//! From a text to its tokens.
ghost use Rattle.std.specs.Prelude.{◌≡◌, ◌≢◌, ℕ, ◌+◌, ◌*◌, ◌≤◌, List, length, drop, chars, IfOk, IfErr};
ghost use Rattle.py_tokens.specs.declared.token.Token.{Token};
ghost use Rattle.py_tokens.specs.declared.fault.TokenFault.{TokenFault as Fault};
ghost use Rattle.py_tokens.specs.Scans.{mark_len};
ghost use Rattle.py_tokens.specs.Readings.{HasTokens, HasFault};

use crate::fault::TokenFault;
use crate::list::Tokens;
use crate::scanner::Scanner;
use std::alloc::Global;

// What follows the mark U+FEFF at the start of a text, where it has one.
fn without_mark(text: &str) -> &str
    ensures { result.now ≡ drop (mark_len text.now) text.now }
{
    let mut chars = text.chars();
    match chars.next() {
        Some('\u{FEFF}') => chars.as_str(),
        _ => text,
    }
}

/// The tokens of a text of at most 262144 bytes (language reference, "Lexical analysis").
pub fn tokens(alloc: Global, text: &str) -> Result<Tokens, TokenFault>
    requires { length text.now ≤ 262144 }
    ensures read { IfOk result (λ found. HasTokens text.now found.tokens found.names) }
    // A text has no other tokens, and no fault.
    ensures only { IfOk result (λ found. (all : List Token) (names : List (List ℕ)) → HasTokens text.now all names → (all ≡ found.tokens) × (names ≡ found.names)) }
    ensures sound { IfOk result (λ found. (fault : Fault) → HasFault text.now fault → ⊥) }
    ensures few { IfOk result (λ found. length found.tokens ≤ 4 * length text.now + 5) }
    // The first fault of a text that has no tokens.
    ensures refused { IfErr result (λ fault. fault ≢ TokenFault.Memory → HasFault text.now fault) }
    ensures first { IfErr result (λ fault. fault ≢ TokenFault.Memory → (other : Fault) → HasFault text.now other → other ≡ fault) }
    ensures none { IfErr result (λ fault. fault ≢ TokenFault.Memory → (all : List Token) (names : List (List ℕ)) → HasTokens text.now all names → ⊥) }
{
    let rest = without_mark(text);
    let mut scanner = Scanner::new(alloc, rest, (text.len() - rest.len()) as u32);
    while !scanner.rest.is_empty() {
        scanner.step()?;
    }
    scanner.end()?;
    let Scanner { names, tokens, .. } = scanner;
    Ok(Tokens::new(tokens, names))
}

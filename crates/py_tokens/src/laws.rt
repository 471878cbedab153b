//! Laws of the token relation.
ghost use Rattle.std.specs.Prelude.{◌≡◌, ℕ, List, ◌⊎◌, drop, length};
ghost use Rattle.py_tokens.specs.declared.token.Token.{Token};
ghost use Rattle.py_tokens.specs.declared.fault.TokenFault.{TokenFault};
ghost use Rattle.py_tokens.specs.NameNumbers.{NamesBelow};
ghost use Rattle.py_tokens.specs.Readings.{HasTokens, HasFault};
ghost use Rattle.py_tokens.specs.Scans.{mark_len};
ghost use Rattle.py_tokens.specs.Separators.{AreLaid};

/// A text has one list of tokens or one fault.
pub fn one_answer()
    ensures answered { (text : List ℕ) → ((tokens : List Token) × (names : List (List ℕ)) × HasTokens text tokens names) ⊎ ((found : TokenFault) × HasFault text found) }
    ensures one_reading { (text : List ℕ) (tokens others : List Token) (names more : List (List ℕ)) →
        HasTokens text tokens names → HasTokens text others more → (tokens ≡ others) × (names ≡ more) }
    ensures one_fault { (text : List ℕ) (found other : TokenFault) → HasFault text found → HasFault text other → found ≡ other }
    ensures never_both { (text : List ℕ) (tokens : List Token) (names : List (List ℕ)) (found : TokenFault) → HasTokens text tokens names → HasFault text found → ⊥ }
{}

/// What lies between the spans of two tokens, before the first and after the last, is only space, comments, joins and line ends.
pub fn only_separators_between()
    ensures { (text : List ℕ) (tokens : List Token) (names : List (List ℕ)) → HasTokens text tokens names → AreLaid (mark_len text) (drop (mark_len text) text) tokens }
{}

/// Each name among a text's tokens has the number of one of its names.
pub fn names_are_numbered()
    ensures { (text : List ℕ) (tokens : List Token) (names : List (List ℕ)) → HasTokens text tokens names → NamesBelow (length names) tokens }
{}

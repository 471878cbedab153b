//! The tokens of a text, and their names.
ghost use Rattle.std.specs.Prelude.{◌≡◌, length, slice_get};
ghost use Rattle.std.specs.Option.{option_copied};

use crate::token::Token;
use place_ids::{Names, Sequence};
use std::marker::Model;

/// The tokens of a text in their order. Each name is a token by its place among the names.
#[derive(Debug, Drop)]
pub struct Tokens {
    list: Sequence<Token>,
    names: Names,
}

impl Model for Tokens {
    ghost use Rattle.py_tokens.specs.TokenList.{TokenList};

    ghost Value = { TokenList };

    ghost view = { λ t. record { tokens = t.list; names = t.names } };
}

impl Tokens {
    pub(crate) fn new(list: Sequence<Token>, names: Names) -> Tokens
        ensures { result ≡ record { tokens = list; names = names } }
    {
        Tokens { list, names }
    }

    /// The token at a place, counted from 0.
    pub fn get(&self, place: usize) -> Option<&Token>
        ensures { option_copied result ≡ slice_get self.now.tokens place }
    {
        self.list.items().get(place)
    }

    pub fn len(&self) -> usize
        ensures { result ≡ length self.now.tokens }
    {
        self.list.len()
    }

    /// The names that the text mentions, in the order of their first mention.
    pub fn names(&self) -> &Names
        ensures { result.now ≡ self.now.names }
    {
        &self.names
    }
}

//! Constants of the text ("Literals").
ghost use Rattle.std.specs.Prelude.{◌≡◌, ◌≤◌, ◌<◌, Some, OnOk, MatchOption};
ghost use Rattle.py_tokens.specs.declared.token.TokenKind.TheVariants as kind;
ghost use Rattle.py_descent.specs.Descent.{descent};
ghost use Rattle.py_descent.specs.Goals.{strings, octets, literal};
ghost use Rattle.py_descent.specs.Programs.{gives, said, room};
ghost use Rattle.py_descent.specs.Takings.{str_in, octets_in, constant_in};
ghost use Rattle.py_parse.specs.Gives.{Gives, behind, number_of, run, same};
ghost use Rattle.py_parse.specs.Literals.{negative, number_or_text, octets_or_negative, text_or_octets};

use crate::fault::ParseFault;
use crate::parser::Parser;
use py_tokens::{Keyword, Op, TokenKind};
use py_tree::Literal;

// A number, after a `-` that is part of it or not.
fn number(kind: TokenKind, negative: bool) -> Option<Literal>
    ensures { result ≡ number_of negative (Some kind) }
{
    match kind {
        TokenKind::Int(value) => Some(Literal::Int(negative, value)),
        TokenKind::Float => Some(Literal::Float),
        _ => None,
    }
}

// A word that is a literal.
fn constant(keyword: Keyword) -> Option<Literal>
    ensures { result ≡ constant_in (Some (kind.Keyword keyword)) }
{
    match keyword {
        Keyword::KwNone => Some(Literal::NoneValue),
        Keyword::KwTrue => Some(Literal::TrueValue),
        Keyword::KwFalse => Some(Literal::FalseValue),
        _ => None,
    }
}

impl<'t> Parser<'t> {
    // Whether a text at the place is empty, if there is one.
    #[tactic(auto, unfolding(py_descent::specs::Programs::said))]
    fn string(&self) -> Option<bool>
        ensures { result ≡ said str_in self.now }
    {
        match self.kind() {
            Some(TokenKind::Str(empty)) => Some(empty),
            _ => None,
        }
    }

    #[tactic(auto, unfolding(py_descent::specs::Programs::said))]
    fn bytes(&self) -> Option<bool>
        ensures { result ≡ said octets_in self.now }
    {
        match self.kind() {
            Some(TokenKind::Bytes(empty)) => Some(empty),
            _ => None,
        }
    }

    #[tactic(auto, unfolding(py_descent::specs::Programs::said))]
    fn number_here(&self, negative: bool) -> Option<Literal>
        ensures { result ≡ said (number_of negative) self.now }
    {
        match self.kind() {
            Some(kind) => number(kind, negative),
            None => None,
        }
    }

    #[tactic(auto, unfolding(py_descent::specs::Programs::said))]
    fn constant_here(&self) -> Option<Literal>
        ensures { result ≡ said constant_in self.now }
    {
        match self.keyword() {
            Some(keyword) => constant(keyword),
            None => None,
        }
    }

    /// Goes past a text, and answers whether it is empty.
    pub(crate) fn eat_string(&mut self) -> Option<bool>
        ensures said { result ≡ said str_in self.old }
        ensures moved { self.new ≡ behind (said str_in self.old) self.old }
        ensures shrinks { MatchOption result (self.new ≡ self.old) (λ _. room self.new < room self.old) }
    {
        let found = self.string();
        self.advance_if(found.is_some());
        found
    }

    pub(crate) fn eat_bytes(&mut self) -> Option<bool>
        ensures said { result ≡ said octets_in self.old }
        ensures moved { self.new ≡ behind (said octets_in self.old) self.old }
        ensures shrinks { MatchOption result (self.new ≡ self.old) (λ _. room self.new < room self.old) }
    {
        let found = self.bytes();
        self.advance_if(found.is_some());
        found
    }

    pub(crate) fn eat_number(&mut self, negative: bool) -> Option<Literal>
        ensures said { result ≡ said (number_of negative) self.old }
        ensures moved { self.new ≡ behind (said (number_of negative) self.old) self.old }
        ensures shrinks { MatchOption result (self.new ≡ self.old) (λ _. room self.new < room self.old) }
    {
        let found = self.number_here(negative);
        self.advance_if(found.is_some());
        found
    }

    pub(crate) fn eat_constant(&mut self) -> Option<Literal>
        ensures said { result ≡ said constant_in self.old }
        ensures moved { self.new ≡ behind (said constant_in self.old) self.old }
        ensures shrinks { MatchOption result (self.new ≡ self.old) (λ _. room self.new < room self.old) }
    {
        let found = self.constant_here();
        self.advance_if(found.is_some());
        found
    }

    /// The rest of texts that stand side by side, which are one ("String literal concatenation"). It is empty where each of them is.
    #[tactic(auto, using(py_descent::proofs::Each::unfold_strings))]
    pub(crate) fn strings(&mut self, first: bool) -> bool
        ensures gives { descent (strings first) self.old ≡ gives result self.new }
        ensures shrinks { room self.new ≤ room self.old }
    {
        let mut empty = first;
        while let Some(part) = self.eat_string() {
            empty = empty && part;
        }
        empty
    }

    #[tactic(auto, using(py_descent::proofs::Each::unfold_octets))]
    pub(crate) fn octets(&mut self, first: bool) -> bool
        ensures gives { descent (octets first) self.old ≡ gives result self.new }
        ensures shrinks { room self.new ≤ room self.old }
    {
        let mut empty = first;
        while let Some(part) = self.eat_bytes() {
            empty = empty && part;
        }
        empty
    }

    /// The default of a parameter: a literal, or a number after a `-`.
    #[tactic(auto, using(py_descent::proofs::Each::unfold_literal))]
    pub(crate) fn default(&mut self) -> Result<Literal, ParseFault>
        ensures gives { Gives same result self.new (descent literal self.old) }
        ensures shrinks { OnOk result (room self.new < room self.old) }
    {
        match self.eat_constant() {
            Some(literal) => Ok(literal),
            None => self.number_default(),
        }
    }

    fn number_default(&mut self) -> Result<Literal, ParseFault>
        ensures gives { Gives same result self.new (run number_or_text self.old) }
        ensures shrinks { OnOk result (room self.new < room self.old) }
    {
        match self.eat_number(false) {
            Some(literal) => Ok(literal),
            None => self.text_default(),
        }
    }

    fn text_default(&mut self) -> Result<Literal, ParseFault>
        ensures gives { Gives same result self.new (run text_or_octets self.old) }
        ensures shrinks { OnOk result (room self.new < room self.old) }
    {
        match self.eat_string() {
            Some(first) => Ok(Literal::Str(self.strings(first))),
            None => self.bytes_default(),
        }
    }

    fn bytes_default(&mut self) -> Result<Literal, ParseFault>
        ensures gives { Gives same result self.new (run octets_or_negative self.old) }
        ensures shrinks { OnOk result (room self.new < room self.old) }
    {
        match self.eat_bytes() {
            Some(first) => Ok(Literal::Bytes(self.octets(first))),
            None => self.negative_default(),
        }
    }

    fn negative_default(&mut self) -> Result<Literal, ParseFault>
        ensures gives { Gives same result self.new (run negative self.old) }
        ensures shrinks { OnOk result (room self.new < room self.old) }
    {
        self.expect_op(Op::Minus)?;
        match self.eat_number(true) {
            Some(literal) => Ok(literal),
            None => Err(self.refuse()),
        }
    }
}

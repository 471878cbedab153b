//! The token at the parser's place, and how the parser goes past it.
ghost use Rattle.std.specs.Prelude.{◌≡◌, ◌<◌, if◌then◌else◌, length, slice_get, Some, IsTrue, MatchBool, OnOk};
ghost use Rattle.std.specs.Option.{is_some};
ghost use Rattle.py_tokens.specs.declared.token.TokenKind.TheVariants as kind;
ghost use Rattle.py_grammar.specs.Cursor.{next, line_of, past, kind_in};
ghost use Rattle.py_grammar.specs.Names.{text_of};
ghost use Rattle.py_descent.specs.Codes.{at, is_in, symbol, keyword as keyword_mark, newline, indent, dedent, end};
ghost use Rattle.py_descent.specs.Bodies.{after_name, at_named, expect};
ghost use Rattle.py_descent.specs.Goals.{name, plain_name};
ghost use Rattle.py_descent.specs.Programs.{give, said, room};
ghost use Rattle.py_descent.specs.Takings.{begins_in, begins_op, begins_test, name_in, is_barred, is_named_specially, is_named_super};
ghost use Rattle.py_descent.specs.Descent.{descent};
ghost use Rattle.py_parse.specs.Gives.{Gives, number, unit, run, op_in, word_in};

use crate::fault::ParseFault;
use crate::marks::Marks;
use crate::names::{is_barred_special, is_private};
use crate::parser::Parser;
use place_ids::{Id, LineNo, NameId};
use py_tokens::{Keyword, Op, Token, TokenKind};

impl<'t> Parser<'t> {
    // The token at a place that the parser looks at.
    fn token_at(&self, place: usize) -> Option<Token>
        ensures { result ≡ slice_get self.now.tokens place }
    {
        if place < self.limit {
            self.tokens.get(place).copied()
        } else {
            None
        }
    }

    fn kind_at(&self, place: usize) -> Option<TokenKind>
        ensures { result ≡ kind_in (slice_get self.now.tokens place) }
    {
        match self.token_at(place) {
            Some(token) => Some(token.kind),
            None => None,
        }
    }

    pub(crate) fn kind(&self) -> Option<TokenKind>
        ensures { result ≡ next self.now }
    {
        self.kind_at(self.place)
    }

    /// The line of the token at the place.
    pub(crate) fn line(&self) -> LineNo
        ensures { result ≡ line_of self.now }
    {
        match self.token_at(self.place) {
            Some(token) => LineNo::new(token.span.line),
            None => LineNo::new(0),
        }
    }

    /// Whether a NAME stands before the place.
    #[tactic(auto, unfolding(py_descent::specs::Bodies::after_name))]
    pub(crate) fn follows_word(&self) -> bool
        ensures { result ≡ after_name self.now }
    {
        match self.kind_at(self.place.saturating_sub(1)) {
            Some(TokenKind::Name(_)) => true,
            _ => false,
        }
    }

    #[tactic(auto, unfolding(py_descent::specs::Programs::said))]
    pub(crate) fn op(&self) -> Option<Op>
        ensures { result ≡ said op_in self.now }
    {
        match self.kind() {
            Some(TokenKind::Op(op)) => Some(op),
            _ => None,
        }
    }

    #[tactic(auto, unfolding(py_descent::specs::Programs::said))]
    pub(crate) fn keyword(&self) -> Option<Keyword>
        ensures { result ≡ said word_in self.now }
    {
        match self.kind() {
            Some(TokenKind::Keyword(keyword)) => Some(keyword),
            _ => None,
        }
    }

    /// The NAME at the place.
    #[tactic(auto, unfolding(py_descent::specs::Programs::said))]
    pub(crate) fn word(&self) -> Option<NameId>
        ensures { result ≡ said name_in self.now }
    {
        name_of(self.kind()?)
    }

    pub(crate) fn at_op(&self, op: Op) -> bool
        ensures { result ≡ at (symbol op) self.now }
    {
        match self.op() {
            Some(found) => found == op,
            None => false,
        }
    }

    pub(crate) fn at_keyword(&self, keyword: Keyword) -> bool
        ensures { result ≡ at (keyword_mark keyword) self.now }
    {
        match self.keyword() {
            Some(found) => found == keyword,
            None => false,
        }
    }

    #[tactic(auto, unfolding(py_descent::specs::Codes::at))]
    pub(crate) fn at_newline(&self) -> bool
        ensures { result ≡ at newline self.now }
    {
        match self.kind() {
            Some(TokenKind::Newline) => true,
            _ => false,
        }
    }

    #[tactic(auto, unfolding(py_descent::specs::Codes::at))]
    pub(crate) fn at_indent(&self) -> bool
        ensures { result ≡ at indent self.now }
    {
        match self.kind() {
            Some(TokenKind::Indent) => true,
            _ => false,
        }
    }

    #[tactic(auto, unfolding(py_descent::specs::Codes::at))]
    pub(crate) fn at_dedent(&self) -> bool
        ensures { result ≡ at dedent self.now }
    {
        match self.kind() {
            Some(TokenKind::Dedent) => true,
            _ => false,
        }
    }

    #[tactic(auto, unfolding(py_descent::specs::Codes::at))]
    pub(crate) fn at_end(&self) -> bool
        ensures { result ≡ at end self.now }
    {
        match self.kind() {
            Some(TokenKind::End) => true,
            _ => false,
        }
    }

    pub(crate) fn at_word(&self) -> bool
        ensures { result ≡ is_some (said name_in self.now) }
    {
        self.word().is_some()
    }

    /// Whether a NAME and `=` are next.
    #[tactic(auto, unfolding(py_descent::specs::Bodies::at_named))]
    pub(crate) fn at_keyword_argument(&self) -> bool
        ensures { result ≡ at_named self.now }
    {
        self.at_word() && self.before_assign()
    }

    // Whether `=` stands after the place.
    fn before_assign(&self) -> bool
        ensures { result ≡ at (symbol Op.Assign) (past self.now) }
    {
        is_assign(self.kind_at(self.place.saturating_add(1)))
    }

    // Goes past the token at the place, if there is one.
    #[tactic(auto, unfolding(py_descent::specs::Programs::room))]
    pub(crate) fn advance_if(&mut self, found: bool)
        requires { IsTrue found → self.now.place < length self.now.tokens }
        ensures moved { self.new ≡ (if found then past self.old else self.old) }
        ensures shrinks { MatchBool found (room self.new < room self.old) (self.new ≡ self.old) }
    {
        if found {
            self.place += 1;
            self.marks = Marks::NONE;
        }
    }

    /// Goes past the operator token at the place if it is this one.
    pub(crate) fn eat_op(&mut self, op: Op) -> bool
        ensures found { result ≡ at (symbol op) self.old }
        ensures moved { self.new ≡ (if at (symbol op) self.old then past self.old else self.old) }
        ensures shrinks { MatchBool result (room self.new < room self.old) (self.new ≡ self.old) }
    {
        let found = self.at_op(op);
        self.advance_if(found);
        found
    }

    pub(crate) fn eat_keyword(&mut self, keyword: Keyword) -> bool
        ensures found { result ≡ at (keyword_mark keyword) self.old }
        ensures moved { self.new ≡ (if at (keyword_mark keyword) self.old then past self.old else self.old) }
        ensures shrinks { MatchBool result (room self.new < room self.old) (self.new ≡ self.old) }
    {
        let found = self.at_keyword(keyword);
        self.advance_if(found);
        found
    }

    pub(crate) fn eat_newline(&mut self) -> bool
        ensures found { result ≡ at newline self.old }
        ensures moved { self.new ≡ (if at newline self.old then past self.old else self.old) }
        ensures shrinks { MatchBool result (room self.new < room self.old) (self.new ≡ self.old) }
    {
        let found = self.at_newline();
        self.advance_if(found);
        found
    }

    pub(crate) fn eat_dedent(&mut self) -> bool
        ensures found { result ≡ at dedent self.old }
        ensures moved { self.new ≡ (if at dedent self.old then past self.old else self.old) }
        ensures shrinks { MatchBool result (room self.new < room self.old) (self.new ≡ self.old) }
    {
        let found = self.at_dedent();
        self.advance_if(found);
        found
    }

    fn eat_indent(&mut self) -> bool
        ensures found { result ≡ at indent self.old }
        ensures moved { self.new ≡ (if at indent self.old then past self.old else self.old) }
        ensures shrinks { MatchBool result (room self.new < room self.old) (self.new ≡ self.old) }
    {
        let found = self.at_indent();
        self.advance_if(found);
        found
    }

    fn eat_end(&mut self) -> bool
        ensures found { result ≡ at end self.old }
        ensures moved { self.new ≡ (if at end self.old then past self.old else self.old) }
        ensures shrinks { MatchBool result (room self.new < room self.old) (self.new ≡ self.old) }
    {
        let found = self.at_end();
        self.advance_if(found);
        found
    }

    /// Goes past the operator token at the place, which has to be this one.
    pub(crate) fn expect_op(&mut self, op: Op) -> Result<(), ParseFault>
        ensures gives { Gives unit result self.new (run (expect (symbol op) (give tt)) self.old) }
        ensures shrinks { OnOk result (room self.new < room self.old) }
    {
        if self.eat_op(op) {
            Ok(())
        } else {
            Err(self.refuse())
        }
    }

    pub(crate) fn expect_keyword(&mut self, keyword: Keyword) -> Result<(), ParseFault>
        ensures gives { Gives unit result self.new (run (expect (keyword_mark keyword) (give tt)) self.old) }
        ensures shrinks { OnOk result (room self.new < room self.old) }
    {
        if self.eat_keyword(keyword) {
            Ok(())
        } else {
            Err(self.refuse())
        }
    }

    pub(crate) fn expect_newline(&mut self) -> Result<(), ParseFault>
        ensures gives { Gives unit result self.new (run (expect newline (give tt)) self.old) }
        ensures shrinks { OnOk result (room self.new < room self.old) }
    {
        if self.eat_newline() {
            Ok(())
        } else {
            Err(self.refuse())
        }
    }

    pub(crate) fn expect_indent(&mut self) -> Result<(), ParseFault>
        ensures gives { Gives unit result self.new (run (expect indent (give tt)) self.old) }
        ensures shrinks { OnOk result (room self.new < room self.old) }
    {
        if self.eat_indent() {
            Ok(())
        } else {
            Err(self.refuse())
        }
    }

    pub(crate) fn expect_dedent(&mut self) -> Result<(), ParseFault>
        ensures gives { Gives unit result self.new (run (expect dedent (give tt)) self.old) }
        ensures shrinks { OnOk result (room self.new < room self.old) }
    {
        if self.eat_dedent() {
            Ok(())
        } else {
            Err(self.refuse())
        }
    }

    pub(crate) fn expect_end(&mut self) -> Result<(), ParseFault>
        ensures gives { Gives unit result self.new (run (expect end (give tt)) self.old) }
        ensures shrinks { OnOk result (room self.new < room self.old) }
    {
        if self.eat_end() {
            Ok(())
        } else {
            Err(self.refuse())
        }
    }

    /// The text of a name.
    pub(crate) fn text(&self, name: NameId) -> &str
        ensures { result.now ≡ text_of self.now name }
    {
        match self.tokens.names().text(name) {
            Some(text) => text,
            None => "",
        }
    }

    // Whether a name is a private one, in a class.
    #[tactic(auto, unfolding(py_descent::specs::Takings::is_barred))]
    fn is_barred(&self, name: NameId) -> bool
        ensures { result ≡ is_barred self.now name }
    {
        self.in_class && is_private(self.text(name))
    }

    // Whether a name is a special one but `__init__`.
    #[tactic(auto, unfolding(py_descent::specs::Takings::is_named_specially))]
    fn is_special(&self, name: NameId) -> bool
        ensures { result ≡ is_named_specially self.now name }
    {
        is_barred_special(self.text(name))
    }

    /// Whether a name is `super`.
    #[tactic(auto, unfolding(py_descent::specs::Takings::is_named_super))]
    pub(crate) fn is_super(&self, name: NameId) -> bool
        ensures { result ≡ is_named_super self.now name }
    {
        self.text(name) == "super"
    }

    /// Whether a private name stands at the place, in a class.
    pub(crate) fn at_private(&self) -> bool {
        match self.word() {
            Some(name) => self.is_barred(name),
            None => false,
        }
    }

    /// Whether a special name but `__init__` stands at the place.
    pub(crate) fn at_special(&self) -> bool {
        match self.word() {
            Some(name) => self.is_special(name),
            None => false,
        }
    }

    pub(crate) fn at_imaginary(&self) -> bool {
        match self.kind() {
            Some(TokenKind::Imaginary) => true,
            _ => false,
        }
    }

    /// The NAME at the place. In a class it is no private one.
    #[tactic(auto, using(py_descent::proofs::Each::unfold_name))]
    pub(crate) fn name(&mut self) -> Result<NameId, ParseFault>
        ensures gives { Gives number result self.new (descent name self.old) }
        ensures shrinks { OnOk result (room self.new < room self.old) }
    {
        match self.word() {
            Some(name) if !self.is_barred(name) => {
                self.advance_if(true);
                Ok(name)
            }
            _ => Err(self.refuse()),
        }
    }

    /// The name of an attribute, or of a method or a member of a class: no special one but `__init__` either.
    #[tactic(auto, using(py_descent::proofs::Each::unfold_plain_name))]
    pub(crate) fn attribute_name(&mut self) -> Result<NameId, ParseFault>
        ensures gives { Gives number result self.new (descent plain_name self.old) }
        ensures shrinks { OnOk result (room self.new < room self.old) }
    {
        match self.word() {
            Some(name) if !(self.is_barred(name) || self.is_special(name)) => {
                self.advance_if(true);
                Ok(name)
            }
            _ => Err(self.refuse()),
        }
    }

    /// Whether the token at the place is one that a test begins with.
    #[tactic(auto, unfolding(py_descent::specs::Takings::begins_test))]
    pub(crate) fn starts_test(&self) -> bool
        ensures { result ≡ begins_test self.now }
    {
        match self.kind() {
            Some(kind) => begins_test(kind),
            None => false,
        }
    }
}

// The name that a token of this kind is.
fn name_of(kind: TokenKind) -> Option<NameId>
    ensures { result ≡ name_in (Some kind) }
{
    match kind {
        TokenKind::Name(name) => Some(name),
        _ => None,
    }
}

fn is_assign(kind: Option<TokenKind>) -> bool
    ensures { result ≡ is_in (symbol Op.Assign) kind }
{
    match kind {
        Some(TokenKind::Op(Op::Assign)) => true,
        _ => false,
    }
}

// Whether a test begins with a token of this kind.
fn begins_test(kind: TokenKind) -> bool
    ensures { result ≡ begins_in (Some kind) }
{
    match kind {
        TokenKind::Name(_) | TokenKind::Int(_) | TokenKind::Float => true,
        TokenKind::Str(_) | TokenKind::Bytes(_) => true,
        TokenKind::Keyword(keyword) => begins_test_word(keyword),
        TokenKind::Op(op) => begins_test_op(op),
        _ => false,
    }
}

fn begins_test_word(keyword: Keyword) -> bool
    ensures { result ≡ begins_in (Some (kind.Keyword keyword)) }
{
    match keyword {
        Keyword::KwNone | Keyword::KwTrue | Keyword::KwFalse | Keyword::KwNot => true,
        _ => false,
    }
}

fn begins_test_op(op: Op) -> bool
    ensures { result ≡ begins_op op }
{
    match op {
        Op::LeftParen | Op::LeftSquare | Op::LeftBrace => true,
        Op::Plus | Op::Minus | Op::Tilde => true,
        _ => false,
    }
}

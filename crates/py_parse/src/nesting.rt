//! How deep the tokens of a text are nested.
ghost use Rattle.std.specs.Prelude.{◌≡◌, ◌<◌, ◌≤◌, slice_get, MatchResult};
ghost use Rattle.py_grammar.specs.Nesting.{Nest, after, after_op, after_word, depth};
ghost use Rattle.py_parse.specs.Depths.{flat, after_in, turned, IsFirstDeep};

use crate::fault::ParseFault;
use py_tokens::{Keyword, Op, TokenKind, Tokens};
use std::alloc::Global;
use std::marker::Model;

/// The least nesting that is too deep.
const TOO_DEEP: u32 = 65;

// What a token does to the count of the innermost bracket, or of the statement.
#[derive(Clone, Copy)]
enum Turn {
    Opens,
    Closes,
    /// The count begins again at 0.
    Resets,
    Adds,
    Indents,
    Dedents,
    Nothing,
}

fn op_turn(op: Op) -> Turn
    ensures { (n : Nest) → turned result n ≡ after_op op n }
{
    match op {
        Op::LeftParen | Op::LeftSquare | Op::LeftBrace => Turn::Opens,
        Op::RightParen | Op::RightSquare | Op::RightBrace => Turn::Closes,
        Op::Comma | Op::Colon | Op::Assign | Op::Semi => Turn::Resets,
        _ => Turn::Adds,
    }
}

fn keyword_turn(keyword: Keyword) -> Turn
    ensures { (n : Nest) → turned result n ≡ after_word keyword n }
{
    match keyword {
        Keyword::KwAnd | Keyword::KwOr | Keyword::KwNot => Turn::Adds,
        Keyword::KwIf | Keyword::KwElse => Turn::Adds,
        Keyword::KwIn | Keyword::KwIs => Turn::Adds,
        _ => Turn::Nothing,
    }
}

fn turn_of(kind: TokenKind) -> Turn
    ensures { (n : Nest) → turned result n ≡ after kind n }
{
    match kind {
        TokenKind::Op(op) => op_turn(op),
        TokenKind::Keyword(keyword) => keyword_turn(keyword),
        TokenKind::Newline => Turn::Resets,
        TokenKind::Indent => Turn::Indents,
        TokenKind::Dedent => Turn::Dedents,
        _ => Turn::Nothing,
    }
}

fn turn_at(tokens: &Tokens, place: usize) -> Turn
    ensures { (n : Nest) → turned result n ≡ after_in (slice_get tokens.now.tokens place) n }
{
    match tokens.get(place) {
        Some(token) => turn_of(token.kind),
        None => Turn::Nothing,
    }
}

// The nesting of the tokens so far: the open INDENTs, the count of the innermost bracket or else of the statement, and
// those of the brackets around it and of the statement, which comes first.
#[derive(Drop)]
struct Nesting {
    blocks: u32,
    count: u32,
    around: Vec<u32>,
    /// How many counts are around, and their sum, in one number.
    outer: u32,
}

impl Model for Nesting {
    ghost use Rattle.std.specs.Prelude.{◌≡◌, ◌+◌, length, sum, reverse};
    ghost use Rattle.py_grammar.specs.Nesting.{Nest};

    ghost Value = { Nest };

    ghost view = { λ n. record { blocks = n.blocks; count = n.count; around = reverse n.around.items } };

    ghost invariant = { λ n. n.outer ≡ length n.around.items + sum n.around.items };
}

impl Nesting {
    fn new(alloc: Global) -> Nesting
        ensures { result ≡ flat }
    {
        Nesting {
            blocks: 0,
            count: 0,
            around: Vec::new(alloc),
            outer: 0,
        }
    }

    fn depth(&self) -> u32
        requires { depth self.now ≤ 65 }
        ensures { result ≡ depth self.now }
    {
        self.blocks + self.outer + self.count
    }

    fn open(&mut self) -> Result<(), ParseFault>
        requires { depth self.old < 65 }
        ensures { MatchResult result (λ _. self.new ≡ turned Turn.Opens self.old) (λ fault. fault ≡ ParseFault.Memory) }
    {
        self.around.push(self.count)?;
        self.outer += self.count + 1;
        self.count = 0;
        Ok(())
    }

    fn close(&mut self)
        requires { depth self.old < 65 }
        ensures { self.new ≡ turned Turn.Closes self.old }
    {
        match self.around.pop() {
            Some(count) => {
                self.outer -= count + 1;
                self.count = count + 1;
            }
            None => self.count += 1,
        }
    }

    fn reset(&mut self)
        ensures { self.new ≡ turned Turn.Resets self.old }
    {
        self.count = 0;
    }

    fn add(&mut self)
        requires { depth self.old < 65 }
        ensures { self.new ≡ turned Turn.Adds self.old }
    {
        self.count += 1;
    }

    fn indent(&mut self)
        requires { depth self.old < 65 }
        ensures { self.new ≡ turned Turn.Indents self.old }
    {
        self.blocks += 1;
    }

    fn dedent(&mut self)
        ensures { self.new ≡ turned Turn.Dedents self.old }
    {
        self.blocks = self.blocks.saturating_sub(1);
    }

    fn take(&mut self, turn: Turn) -> Result<(), ParseFault>
        requires { depth self.old < 65 }
        ensures { MatchResult result (λ _. self.new ≡ turned turn self.old) (λ fault. fault ≡ ParseFault.Memory) }
    {
        match turn {
            Turn::Opens => return self.open(),
            Turn::Closes => self.close(),
            Turn::Resets => self.reset(),
            Turn::Adds => self.add(),
            Turn::Indents => self.indent(),
            Turn::Dedents => self.dedent(),
            Turn::Nothing => {}
        }
        Ok(())
    }
}

/// The place of the first token whose nesting is too deep, or the number of the tokens.
#[tactic(auto, using(crate::proofs::Depths::nested_start, crate::proofs::Depths::nested_end))]
pub(crate) fn first_too_deep(alloc: Global, tokens: &Tokens) -> Result<usize, ParseFault>
    ensures { MatchResult result (λ place. IsFirstDeep tokens.now.tokens place) (λ fault. fault ≡ ParseFault.Memory) }
{
    let mut nesting = Nesting::new(alloc);
    for place in 0..tokens.len() {
        nesting.take(turn_at(tokens, place))?;
        if nesting.depth() >= TOO_DEEP {
            return Ok(place);
        }
    }
    Ok(tokens.len())
}

//! The scan of a text from its first byte to its last.
ghost use Rattle.std.specs.Prelude.{◌≡◌, ◌+◌, ◌<◌, ◌≤◌, ◌==◌, length, not};
ghost use Rattle.std.specs.List.{prefix_len};
ghost use Rattle.py_tokens.specs.Turns.{end_of, Turn, at_margin, begin_turn, blank_turn, column_turn, dedent_turn, fails, fault_of, flawed_turn, goes, indent_turn, line_end_turn, newline_turn, line_turn, margin_turn, name_turn, openers_after, passes, same_turn, skipped_len, token_turn, turn_at, turn_of, within_line};
ghost use Rattle.place_ids.specs.declared.Span.{Span as SpanValue};

use crate::fault::TokenFault;
use crate::front::{Flaw, Front, at_front};
use crate::line::line_ends;
use crate::place::{Filling, Margin, Place, clashes, column_of, filling_of, first_filling};
use crate::runs::run_of_space;
use crate::token::{Op, Token, TokenKind};
use place_ids::{NameId, Names, PushFault, Sequence, Span};
use std::alloc::Global;

/// Where a scan stands, and what it has read so far.
#[derive(Drop)]
pub(crate) struct Scanner<'t> {
    alloc: Global,
    pub(crate) rest: &'t str,
    pub(crate) offset: u32,
    pub(crate) line: u32,
    pub(crate) place: Place,
    pub(crate) columns: Vec<u32>,
    pub(crate) filling: Filling,
    pub(crate) openers: Vec<Span>,
    pub(crate) names: Names,
    pub(crate) tokens: Sequence<Token>,
    ghost within: { offset + length rest.now ≤ 262144 },
    ghost lines: { line ≤ offset + 1 },
    ghost few: { length names ≤ offset },
}

// The fault of a flaw.
fn fault_of(flaw: Flaw, span: Span) -> TokenFault
    ensures { result ≡ fault_of flaw span }
{
    match flaw {
        Flaw::BadCharacter => TokenFault::BadCharacter(span),
        Flaw::OpenString => TokenFault::OpenString(span),
        Flaw::BadNumber => TokenFault::BadNumber(span),
        Flaw::WideInt => TokenFault::WideInt(span),
        Flaw::NotNfkc => TokenFault::NotNfkc(span),
        Flaw::Prefix => TokenFault::Prefix(span),
    }
}

// How many bytes of a text stand before its first form feed.
fn run_to_form_feed(space: &[u8]) -> usize
    ensures exact { result ≡ prefix_len (λ b. not (b == 12)) space.now }
    ensures within { result ≤ length space.now }
{
    space.iter().take_while(|byte| **byte != b'\x0C').count()
}

// The empty span at the end of another.
fn end_of(span: &Span) -> Span
    ensures { result ≡ end_of span.now }
{
    Span {
        start: span.end,
        end: span.end,
        line: span.line,
    }
}

fn skipped_len(bytes: &[u8]) -> usize
    ensures exact { result ≡ skipped_len bytes.now }
    ensures within { result ≤ length bytes.now }
{
    match bytes {
        [b'\x0C', ..] => 1,
        _ => 0,
    }
}

impl<'t> Scanner<'t> {
    ghost use Rattle.std.specs.Prelude.{[], ◌∷◌, ◌++◌, drop, take, true, false, Some, None, replicate, slice_get, ◌-◌, IsErrOf, IfOk, OnOk, OnErr, IfErr, ◌≢◌};
    ghost use Rattle.std.specs.Str.{IsCharBoundary};
    ghost use Rattle.std.specs.Vec.{vec_items};
    ghost use Rattle.place_ids.specs.Names.{number_in};
    ghost use Rattle.py_tokens.specs.Scans.{at_place, naming, past, span_at, token_of, start_at, mark_len, top_of, popped};
    ghost use Rattle.py_tokens.specs.Readings.{last_tokens};
    ghost use Rattle.py_tokens.specs.Scanners.{scan_of, Takes, Follows};
    ghost use Rattle.py_tokens.specs.Fronts.{front_of, Fits};

    /// A scanner at the start of a text of which so many bytes were skipped.
    pub(crate) fn new(alloc: Global, rest: &'t str, skipped: u32) -> Scanner<'t>
        requires { skipped + length rest.now ≤ 262144 }
        ensures starts { scan_of result ≡ start_at skipped }
        ensures rest { result.rest.now ≡ rest.now }
        ensures empty { result.tokens ≡ [] }
    {
        Scanner {
            alloc,
            rest,
            offset: skipped,
            line: 1,
            place: Place::Start,
            columns: Vec::new(alloc),
            filling: Filling::Nothing,
            openers: Vec::new(alloc),
            names: Names::new(alloc),
            tokens: Sequence::new(alloc),
        }
    }

    // The span of bytes after these many.
    fn span(&self, from: usize, len: usize) -> Span
        requires { from + len ≤ length self.now.rest.now }
        ensures { result ≡ span_at from len self.now.rest.now (scan_of self.now) }
    {
        let start = self.offset + from as u32;
        Span {
            start,
            end: start + len as u32,
            line: self.line + line_ends(&self.rest.as_bytes()[..from]) as u32,
        }
    }

    // Gives a token.
    fn give(&mut self, kind: TokenKind, span: Span) -> Result<(), TokenFault>
        ensures given { OnOk result (self.new.tokens ≡ self.old.tokens ++ record { kind = kind; span = span } ∷ []) }
        ensures fault { IfErr result (λ fault. fault ≡ TokenFault.Memory) }
        ensures stands { scan_of self.new ≡ scan_of self.old }
        ensures rest { self.new.rest.now ≡ self.old.rest.now }
    {
        match self.tokens.push(Token { kind, span }) {
            Ok(()) => Ok(()),
            Err(_) => Err(TokenFault::Memory),
        }
    }

    // Passes bytes.
    fn pass(&mut self, len: usize, place: Place)
        requires { IsCharBoundary self.old.rest.now len }
        ensures after { scan_of self.new ≡ at_place place (past len self.old.rest.now (scan_of self.old)) }
        ensures rest { self.new.rest.now ≡ drop len self.old.rest.now }
        ensures tokens { self.new.tokens ≡ self.old.tokens }
    {
        let passed = &self.rest.as_bytes()[..len];
        self.line += line_ends(passed) as u32;
        self.offset += len as u32;
        self.rest = &self.rest[len..];
        self.place = place;
    }

    // Keeps an opener, or takes the last one away at a closer.
    fn bracket(&mut self, kind: &TokenKind, span: Span) -> Result<(), TokenFault>
        ensures kept { OnOk result (scan_of self.new ≡ record (scan_of self.old) { openers = openers_after kind.now span (scan_of self.old).openers }) }
        ensures fault { IfErr result (λ fault. fault ≡ TokenFault.Memory) }
        ensures rest { self.new.rest.now ≡ self.old.rest.now }
        ensures tokens { self.new.tokens ≡ self.old.tokens }
    {
        match kind {
            TokenKind::Op(Op::LeftParen | Op::LeftSquare | Op::LeftBrace) => {
                match self.openers.push(span) {
                    Ok(()) => Ok(()),
                    Err(_) => Err(TokenFault::Memory),
                }
            }
            TokenKind::Op(Op::RightParen | Op::RightSquare | Op::RightBrace) => {
                self.openers.pop();
                Ok(())
            }
            _ => Ok(()),
        }
    }

    // Gives the next bytes as a token, and passes them.
    fn read(&mut self, kind: TokenKind, len: usize) -> Result<(), TokenFault>
        requires { IsCharBoundary self.old.rest.now len }
        ensures taken { OnOk result (Follows self.old self.new (token_turn kind len self.old.rest.now (scan_of self.old))) }
        ensures fault { IfErr result (λ fault. fault ≡ TokenFault.Memory) }
    {
        let span = self.span(0, len);
        self.bracket(&kind, span)?;
        self.give(kind, span)?;
        self.pass(len, Place::Line);
        Ok(())
    }

    // The number of a name that was passed.
    fn intern(&mut self, name: &str) -> Result<NameId, TokenFault>
        requires { length self.old.names < self.old.offset }
        ensures numbered { IfOk result (λ id. id ≡ number_in self.old.names name.now) }
        ensures named { OnOk result (scan_of self.new ≡ naming name.now (scan_of self.old)) }
        ensures fault { IfErr result (λ fault. fault ≡ TokenFault.Memory) }
        ensures rest { self.new.rest.now ≡ self.old.rest.now }
        ensures tokens { self.new.tokens ≡ self.old.tokens }
    {
        match self.names.intern(name) {
            Ok(id) => Ok(id),
            Err(PushFault::Memory) => Err(TokenFault::Memory),
            Err(PushFault::Full) => unreachable!(),
        }
    }

    // Gives the word at the front as a name, and passes it.
    fn read_name(&mut self, len: usize) -> Result<(), TokenFault>
        requires some { 0 < len }
        requires cut { IsCharBoundary self.old.rest.now len }
        ensures taken { OnOk result (Follows self.old self.new (name_turn len self.old.rest.now (scan_of self.old))) }
        ensures fault { IfErr result (λ fault. fault ≡ TokenFault.Memory) }
    {
        let name = &self.rest[..len];
        let span = self.span(0, len);
        self.pass(len, Place::Line);
        let id = self.intern(name)?;
        self.give(TokenKind::Name(id), span)
    }

    // Passes bytes that give no token.
    fn skip(&mut self, len: usize, place: Place)
        requires { IsCharBoundary self.old.rest.now len }
        ensures { Follows self.old self.new (passes [] len place self.old.rest.now (scan_of self.old)) }
    {
        self.pass(len, place);
    }

    // Gives the line end of a logical line as its NEWLINE.
    fn read_newline(&mut self, len: usize) -> Result<(), TokenFault>
        requires { IsCharBoundary self.old.rest.now len }
        ensures taken { OnOk result (Follows self.old self.new (newline_turn len self.old.rest.now (scan_of self.old))) }
        ensures fault { IfErr result (λ fault. fault ≡ TokenFault.Memory) }
    {
        let span = self.span(0, len);
        self.give(TokenKind::Newline, span)?;
        self.pass(len, Place::Start);
        Ok(())
    }

    // Passes a line end, which is a token where no bracket is open.
    fn end_line(&mut self, len: usize) -> Result<(), TokenFault>
        requires { IsCharBoundary self.old.rest.now len }
        ensures taken { OnOk result (Follows self.old self.new (line_end_turn len self.old.rest.now (scan_of self.old))) }
        ensures fault { IfErr result (λ fault. fault ≡ TokenFault.Memory) }
    {
        if self.openers.is_empty() {
            return self.read_newline(len);
        }
        self.skip(len, Place::Line);
        Ok(())
    }

    // Passes the leading space of a line.
    fn pass_margin(&mut self) -> Result<(), TokenFault>
        ensures taken { OnOk result (Follows self.old self.new (margin_turn self.old.rest.now (scan_of self.old))) }
        ensures fault { IfErr result (λ fault. margin_turn self.old.rest.now (scan_of self.old) ≡ fails fault) }
    {
        let bytes = self.rest.as_bytes();
        let from = skipped_len(bytes);
        let len = run_of_space(&bytes[from..]);
        let space = &bytes[from..from + len];
        let clear = run_to_form_feed(space);
        if clear < len {
            return Err(TokenFault::BadCharacter(self.span(from + clear, 1)));
        }
        let margin = Margin {
            span: self.span(from, len),
            column: column_of(space),
            filling: filling_of(space),
            ends_block: false,
        };
        self.skip(from + len, Place::Margin(margin));
        Ok(())
    }

    // Ends the last block.
    fn dedent(&mut self, margin: &Margin) -> Result<(), TokenFault>
        ensures taken { OnOk result (Follows self.old self.new (dedent_turn margin.now self.old.rest.now (scan_of self.old))) }
        ensures fault { IfErr result (λ fault. fault ≡ TokenFault.Memory) }
    {
        self.give(TokenKind::Dedent, end_of(&margin.span))?;
        self.columns.pop();
        self.place = Place::Margin(Margin {
            ends_block: true,
            ..*margin
        });
        Ok(())
    }

    // Stands within a logical line.
    fn begin_line(&mut self, margin: &Margin)
        ensures after { scan_of self.new ≡ within_line margin.now (scan_of self.old) }
        ensures rest { self.new.rest.now ≡ self.old.rest.now }
        ensures tokens { self.new.tokens ≡ self.old.tokens }
    {
        self.place = Place::Line;
        self.filling = first_filling(self.filling, margin.filling);
    }

    // Goes on with the last block.
    fn go_on(&mut self, margin: &Margin)
        ensures { Follows self.old self.new (same_turn margin.now self.old.rest.now (scan_of self.old)) }
    {
        self.begin_line(margin);
    }

    // Begins a block.
    fn indent(&mut self, margin: &Margin) -> Result<(), TokenFault>
        ensures taken { OnOk result (Follows self.old self.new (indent_turn margin.now self.old.rest.now (scan_of self.old))) }
        ensures fault { IfErr result (λ fault. fault ≡ TokenFault.Memory) }
    {
        if self.columns.push(margin.column).is_err() {
            return Err(TokenFault::Memory);
        }
        self.give(TokenKind::Indent, end_of(&margin.span))?;
        self.begin_line(margin);
        Ok(())
    }

    // The column of the last block.
    fn top(&self) -> u32
        ensures { result ≡ top_of (scan_of self.now).columns }
    {
        match self.columns.last() {
            Some(column) => *column,
            None => 0,
        }
    }

    // Begins a logical line: it opens a block, goes on with one, or ends one.
    fn begin(&mut self, margin: &Margin) -> Result<(), TokenFault>
        ensures taken { OnOk result (Follows self.old self.new (begin_turn margin.now self.old.rest.now (scan_of self.old))) }
        ensures fault { IfErr result (λ fault. fault ≢ TokenFault.Memory → begin_turn margin.now self.old.rest.now (scan_of self.old) ≡ fails fault) }
    {
        if clashes(self.filling, margin.filling) {
            return Err(TokenFault::MixedTabs(margin.span));
        }
        let top = self.top();
        if margin.column < top {
            return self.dedent(margin);
        }
        if margin.column == top {
            self.go_on(margin);
            return Ok(());
        }
        if margin.ends_block {
            return Err(TokenFault::BadIndent(margin.span));
        }
        self.indent(margin)
    }

    // Takes the next step before the first token of a logical line.
    fn read_blank(&mut self, margin: &Margin, front: Front) -> Result<(), TokenFault>
        requires { Fits self.old.rest.now front }
        ensures taken { OnOk result (Follows self.old self.new (blank_turn margin.now front self.old.rest.now (scan_of self.old))) }
        ensures fault { IfErr result (λ fault. fault ≢ TokenFault.Memory → blank_turn margin.now front self.old.rest.now (scan_of self.old) ≡ fails fault) }
    {
        match front {
            Front::Separator(len) => {
                self.skip(len, Place::Margin(*margin));
                Ok(())
            }
            Front::LineEnd(len) => {
                self.skip(len, Place::Start);
                Ok(())
            }
            _ => self.begin(margin),
        }
    }

    // Takes the next step within a logical line.
    fn read_line(&mut self, front: Front) -> Result<(), TokenFault>
        requires { Fits self.old.rest.now front }
        ensures taken { OnOk result (Follows self.old self.new (line_turn front self.old.rest.now (scan_of self.old))) }
        ensures fault { IfErr result (λ fault. fault ≢ TokenFault.Memory → line_turn front self.old.rest.now (scan_of self.old) ≡ fails fault) }
    {
        match front {
            Front::Separator(len) => {
                self.skip(len, Place::Line);
                Ok(())
            }
            Front::LineEnd(len) => self.end_line(len),
            Front::Name(len) => self.read_name(len),
            Front::Token(kind, len) => self.read(kind, len),
            Front::Flawed(flaw, from, len) => Err(fault_of(flaw, self.span(from, len))),
        }
    }

    // Takes the next step past leading space.
    fn step_margin(&mut self, margin: &Margin) -> Result<(), TokenFault>
        requires { 0 < length self.old.rest.now }
        ensures taken { OnOk result (Follows self.old self.new (turn_at (Place.Margin margin.now) self.old.rest.now (scan_of self.old))) }
        ensures fault { IfErr result (λ fault. fault ≢ TokenFault.Memory → turn_at (Place.Margin margin.now) self.old.rest.now (scan_of self.old) ≡ fails fault) }
    {
        match at_front(self.alloc, self.rest) {
            Ok(front) => self.read_blank(margin, front),
            Err(_) => Err(TokenFault::Memory),
        }
    }

    // Takes the next step within a logical line.
    fn step_line(&mut self) -> Result<(), TokenFault>
        requires { 0 < length self.old.rest.now }
        ensures taken { OnOk result (Follows self.old self.new (turn_at Place.Line self.old.rest.now (scan_of self.old))) }
        ensures fault { IfErr result (λ fault. fault ≢ TokenFault.Memory → turn_at Place.Line self.old.rest.now (scan_of self.old) ≡ fails fault) }
    {
        match at_front(self.alloc, self.rest) {
            Ok(front) => self.read_line(front),
            Err(_) => Err(TokenFault::Memory),
        }
    }

    /// Takes the next step of the scan.
    pub(crate) fn step(&mut self) -> Result<(), TokenFault>
        requires { 0 < length self.old.rest.now }
        ensures taken { OnOk result (Follows self.old self.new (turn_of self.old.rest.now (scan_of self.old))) }
        ensures fault { IfErr result (λ fault. fault ≢ TokenFault.Memory → turn_of self.old.rest.now (scan_of self.old) ≡ fails fault) }
    {
        match self.place {
            Place::Start => self.pass_margin(),
            Place::Margin(margin) => self.step_margin(&margin),
            Place::Line => self.step_line(),
        }
    }

    // Gives a DEDENT for each block that is left.
    fn end_blocks(&mut self, span: Span) -> Result<(), TokenFault>
        ensures given { OnOk result (self.new.tokens ≡ self.old.tokens ++ replicate (length (scan_of self.old).columns) (record { kind = TokenKind.Dedent; span = span })) }
        ensures fault { IfErr result (λ fault. fault ≡ TokenFault.Memory) }
        ensures stands { OnOk result (scan_of self.new ≡ scan_of self.old) }
    {
        for _ in 0..self.columns.len() {
            self.give(TokenKind::Dedent, span)?;
        }
        Ok(())
    }

    /// Gives the tokens at the end of the text.
    pub(crate) fn end(&mut self) -> Result<(), TokenFault>
        requires { length self.old.rest.now ≡ 0 }
        ensures closed { OnOk result ((scan_of self.old).openers ≡ []) }
        ensures given { OnOk result (self.new.tokens ≡ self.old.tokens ++ last_tokens (scan_of self.old)) }
        ensures fault { IfErr result (λ fault. fault ≢ TokenFault.Memory → (last : SpanValue) × (slice_get (scan_of self.old).openers (length (scan_of self.old).openers - 1) ≡ Some last) × (fault ≡ TokenFault.OpenBracket last)) }
        ensures stands { OnOk result (scan_of self.new ≡ scan_of self.old) }
    {
        if let Some(last) = self.openers.last() {
            return Err(TokenFault::OpenBracket(*last));
        }
        let span = self.span(0, 0);
        if let Place::Line = self.place {
            self.give(TokenKind::Newline, span)?;
        }
        self.end_blocks(span)?;
        self.give(TokenKind::End, span)
    }
}

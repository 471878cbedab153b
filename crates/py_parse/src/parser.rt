//! The parser: where it stands in the tokens, and what it has numbered so far.
ghost use Rattle.std.specs.Prelude.{◌≡◌, ◌≤◌, ◌<◌, ◌^◌, length, take, false};
ghost use Rattle.py_grammar.specs.Cursor.{with_site, with_fun, with_class, within};
ghost use Rattle.py_descent.specs.Programs.{gives, room};
ghost use Rattle.py_parse.specs.Gives.{Gives, number};

use crate::fault::ParseFault;
use crate::marks::{Header, Mark, Marks};
use place_ids::{ClassId, FunId, Id, SiteId};
use py_tokens::Tokens;
use std::alloc::Global;
use std::marker::Model;

/// A parser over the tokens of a module. Those from `limit` on it doesn't look at.
#[derive(Drop)]
pub(crate) struct Parser<'t> {
    pub(crate) alloc: Global,
    pub(crate) tokens: &'t Tokens,
    pub(crate) place: usize,
    pub(crate) limit: usize,
    sites: u32,
    funs: u32,
    classes: u32,
    pub(crate) in_class: bool,
    pub(crate) header: Option<Header>,
    pub(crate) marks: Marks,
}

impl<'t> Model for Parser<'t> {
    ghost use Rattle.std.specs.Prelude.{◌<◌, ◌^◌, take};
    ghost use Rattle.py_grammar.specs.Cursor.{Cursor};

    ghost Value = { Cursor };

    ghost view = { λ p. record { tokens = take p.limit p.tokens.now.tokens; names = p.tokens.now.names; place = p.place; in_class = p.in_class; funs = p.funs; classes = p.classes; sites = p.sites } };

    ghost invariant = { λ p. p.limit < 2 ^ 64 };
}

impl<'t> Parser<'t> {
    /// A parser at the first of the tokens.
    pub(crate) fn new(alloc: Global, tokens: &'t Tokens, limit: usize) -> Parser<'t>
        ensures { result ≡ record { tokens = take limit tokens.now.tokens; names = tokens.now.names; place = 0; in_class = false; funs = 0; classes = 0; sites = 0 } }
    {
        Parser {
            alloc,
            tokens,
            place: 0,
            limit,
            sites: 0,
            funs: 0,
            classes: 0,
            in_class: false,
            header: None,
            marks: Marks::NONE,
        }
    }

    pub(crate) fn alloc(&self) -> Global {
        self.alloc
    }

    /// Says what stands at the place, for the name of a refusal there.
    pub(crate) fn mark(&mut self, mark: Mark)
        ensures { self.new ≡ self.old }
    {
        self.marks.set(mark);
    }

    /// Goes in between the brackets of a header, or out again.
    pub(crate) fn enter(&mut self, header: Option<Header>)
        ensures { self.new ≡ self.old }
    {
        self.header = header;
    }

    /// Begins or ends the body of a class.
    #[tactic(auto, unfolding(py_descent::specs::Programs::room))]
    pub(crate) fn set_in_class(&mut self, in_class: bool)
        ensures set { self.new ≡ within in_class self.old }
        ensures keeps { room self.new ≡ room self.old }
    {
        self.in_class = in_class;
    }

    /// The number of the next expression. Where numbers run out, no memory could hold as many.
    #[tactic(auto, unfolding(py_descent::specs::Programs::room))]
    pub(crate) fn site(&mut self) -> Result<SiteId, ParseFault>
        ensures gives { Gives number result self.new (gives self.old.sites (with_site self.old)) }
        ensures keeps { room self.new ≡ room self.old }
    {
        let number = self.sites;
        match number.checked_add(1) {
            Some(next) => {
                self.sites = next;
                Ok(SiteId::new(number))
            }
            None => Err(ParseFault::Memory),
        }
    }

    /// The number of the next function.
    #[tactic(auto, unfolding(py_descent::specs::Programs::room))]
    pub(crate) fn fun_id(&mut self) -> Result<FunId, ParseFault>
        ensures gives { Gives number result self.new (gives self.old.funs (with_fun self.old)) }
        ensures keeps { room self.new ≡ room self.old }
    {
        let number = self.funs;
        match number.checked_add(1) {
            Some(next) => {
                self.funs = next;
                Ok(FunId::new(number))
            }
            None => Err(ParseFault::Memory),
        }
    }

    /// The number of the next class.
    #[tactic(auto, unfolding(py_descent::specs::Programs::room))]
    pub(crate) fn class_id(&mut self) -> Result<ClassId, ParseFault>
        ensures gives { Gives number result self.new (gives self.old.classes (with_class self.old)) }
        ensures keeps { room self.new ≡ room self.old }
    {
        let number = self.classes;
        match number.checked_add(1) {
            Some(next) => {
                self.classes = next;
                Ok(ClassId::new(number))
            }
            None => Err(ParseFault::Memory),
        }
    }
}

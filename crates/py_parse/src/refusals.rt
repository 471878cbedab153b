//! Why a token is refused, and under which name.
ghost use Rattle.py_parse.specs.Gives.{IsRefusal};

use crate::fault::ParseFault;
use crate::marks::Header;
use crate::parser::Parser;
use crate::symbols::compare_operator;
use place_ids::Span;
use py_tokens::{Form, Keyword, Op, TokenKind};

// Where there are no tokens.
const NOWHERE: Span = Span {
    start: 0,
    end: 0,
    line: 0,
};

// A keyword that no module has. Each is a form of its own name.
fn barred_keyword(keyword: Keyword) -> Option<Form> {
    match keyword {
        Keyword::KwLambda => Some(Form::Lambda),
        Keyword::KwYield => Some(Form::Yield),
        Keyword::KwAsync => Some(Form::Async),
        Keyword::KwAwait => Some(Form::Await),
        Keyword::KwWith => Some(Form::With),
        Keyword::KwFinally => Some(Form::Finally),
        Keyword::KwDel => Some(Form::Del),
        Keyword::KwNonlocal => Some(Form::Nonlocal),
        Keyword::KwGlobal => Some(Form::Global),
        Keyword::KwDef => Some(Form::NestedFunction),
        Keyword::KwClass => Some(Form::NestedClass),
        _ => None,
    }
}

impl<'t> Parser<'t> {
    /// The refusal of the token at the place, which no module has there.
    pub(crate) fn refuse(&self) -> ParseFault
        ensures { IsRefusal result }
    {
        let span = match self.tokens.get(self.place) {
            Some(token) => token.span,
            None => NOWHERE,
        };
        match self.form() {
            Some(form) => ParseFault::OutOfProfile(form, span),
            None => ParseFault::Unexpected(span),
        }
    }

    // The form that the token shows, if there is one. Where two would do, it is the first of them.
    fn form(&self) -> Option<Form> {
        self.keyword_form()
            .or(self.symbol_form())
            .or(self.name_form())
            .or(self.place_form())
    }

    fn keyword_form(&self) -> Option<Form> {
        let keyword = self.keyword()?;
        match keyword {
            Keyword::KwFor if self.in_brackets() => Some(Form::Comprehension),
            Keyword::KwElse if self.marks.loop_block => Some(Form::LoopElse),
            Keyword::KwIs | Keyword::KwIn | Keyword::KwNot if self.marks.comparison => {
                Some(Form::ChainedCompare)
            }
            _ => barred_keyword(keyword),
        }
    }

    // The form that an operator shows, or an imaginary number.
    fn symbol_form(&self) -> Option<Form> {
        if self.at_imaginary() {
            return Some(Form::Complex);
        }
        let op = self.op()?;
        match op {
            Op::At if self.marks.statement || self.marks.member => Some(Form::Decorator),
            Op::Walrus => Some(Form::Walrus),
            Op::Star | Op::DoubleStar | Op::Slash if self.in_params() => Some(Form::StarParam),
            Op::Star | Op::DoubleStar if self.marks.element || self.marks.member => Some(
                Form::StarArg,
            ),
            Op::Comma if self.in_bases() => Some(Form::MultipleBases),
            Op::Assign if self.in_bases() => Some(Form::ClassKeyword),
            _ => self.compare_form(op),
        }
    }

    fn compare_form(&self, op: Op) -> Option<Form> {
        if self.marks.comparison && compare_operator(op).is_some() {
            Some(Form::ChainedCompare)
        } else {
            None
        }
    }

    fn in_params(&self) -> bool {
        matches!(self.header, Some(Header::Params))
    }

    fn in_bases(&self) -> bool {
        matches!(self.header, Some(Header::Bases))
    }

    // Whether a bracket is open before the place.
    fn in_brackets(&self) -> bool {
        let mut open = 0u32;
        for place in 0..self.place {
            if let Some(token) = self.tokens.get(place) {
                open = open_after(open, token.kind);
            }
        }
        open > 0
    }

    // The kind of the token before the place.
    fn previous(&self) -> Option<TokenKind> {
        let place = self.place.checked_sub(1)?;
        let token = self.tokens.get(place)?;
        Some(token.kind)
    }

    fn follows_op(&self, op: Op) -> bool {
        self.previous() == Some(TokenKind::Op(op))
    }

    fn follows_keyword(&self, keyword: Keyword) -> bool {
        self.previous() == Some(TokenKind::Keyword(keyword))
    }

    // Whether the name of a member or a method of a class has to stand at the place.
    fn awaits_member_name(&self) -> bool {
        self.marks.member || self.in_class && self.follows_keyword(Keyword::KwDef)
    }

    fn name_form(&self) -> Option<Form> {
        if self.at_special() && self.awaits_member_name() {
            return Some(Form::SpecialMethod);
        }
        if self.at_special() && self.follows_op(Op::Dot) {
            return Some(Form::SpecialAttribute);
        }
        if self.at_private() {
            return Some(Form::PrivateName);
        }
        None
    }

    // The form that a place shows.
    fn place_form(&self) -> Option<Form> {
        if self.awaits_default() && self.starts_value() {
            return Some(Form::Default);
        }
        if self.marks.super_form {
            return Some(Form::SuperForm);
        }
        if self.marks.first_colon && (self.at_op(Op::Comma) || self.at_op(Op::RightBrace)) {
            return Some(Form::SetDisplay);
        }
        self.import_form().or(self.late_form())
    }

    fn awaits_default(&self) -> bool {
        self.in_params() && self.follows_op(Op::Assign)
    }

    // Whether the token is one that a test of Python begins with.
    fn starts_value(&self) -> bool {
        self.starts_test() || self.at_op(Op::Ellipsis)
    }

    fn import_form(&self) -> Option<Form> {
        if self.marks.alias {
            return Some(Form::DottedImport);
        }
        if self.awaits_module() && (self.at_op(Op::Dot) || self.at_op(Op::Ellipsis)) {
            return Some(Form::RelativeImport);
        }
        if self.follows_keyword(Keyword::KwImport) && self.at_op(Op::Star) {
            return Some(Form::StarImport);
        }
        None
    }

    // Whether the place is after the `from` of an import, and not of a `raise`.
    fn awaits_module(&self) -> bool {
        self.follows_keyword(Keyword::KwFrom) && !self.marks.test
    }

    fn late_form(&self) -> Option<Form> {
        if self.marks.slice && self.at_assignment() {
            return Some(Form::SliceStore);
        }
        if self.marks.test && self.at_op(Op::Ellipsis) {
            return Some(Form::Ellipsis);
        }
        if self.marks.member && self.starts_statement() {
            return Some(Form::ClassBody);
        }
        None
    }

    // Whether `=` or the operator of an augmented assignment stands at the place.
    fn at_assignment(&self) -> bool {
        self.at_op(Op::Assign) || self.augment_op().is_some()
    }

    // Whether the token is one that a statement begins with.
    fn starts_statement(&self) -> bool {
        self.starts_test() || self.at_compound() || self.at_statement_word()
    }

    // Whether the first word of a simple statement stands at the place.
    fn at_statement_word(&self) -> bool {
        match self.keyword() {
            Some(Keyword::KwPass | Keyword::KwBreak | Keyword::KwContinue) => true,
            Some(Keyword::KwReturn | Keyword::KwRaise | Keyword::KwAssert) => true,
            Some(Keyword::KwImport | Keyword::KwFrom) => true,
            _ => false,
        }
    }
}

// How many brackets are open after a token.
fn open_after(open: u32, kind: TokenKind) -> u32 {
    match kind {
        TokenKind::Op(Op::LeftParen | Op::LeftSquare | Op::LeftBrace) => open.saturating_add(1),
        TokenKind::Op(Op::RightParen | Op::RightSquare | Op::RightBrace) => open.saturating_sub(1),
        _ => open,
    }
}

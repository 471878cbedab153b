//! What stands in brackets: groups, lists and dicts ("Parenthesized forms", "List displays", "Dictionary displays").
ghost use Rattle.std.specs.Prelude.{◌≡◌, ◌≤◌, ◌<◌, OnOk};
ghost use Rattle.py_descent.specs.Bodies.{expect};
ghost use Rattle.py_descent.specs.Codes.{symbol};
ghost use Rattle.py_descent.specs.Descent.{descent};
ghost use Rattle.py_descent.specs.Goals.{test, group, list_display, dict_display, pairs};
ghost use Rattle.py_descent.specs.Programs.{give, call, room};
ghost use Rattle.py_tree.specs.Tree.{no_pairs};
ghost use Rattle.py_tree.specs.View.{expr_view, pair_view, pairs_view};
ghost use Rattle.py_parse.specs.Gives.{Gives, run};

use crate::fault::ParseFault;
use crate::marks::Mark;
use crate::parser::Parser;
use place_ids::LineNo;
use py_tokens::Op;
use py_tree::{Expr, Pair};

impl<'t> Parser<'t> {
    /// Says that an element may begin at the place.
    pub(crate) fn mark_element(&mut self)
        ensures { self.new ≡ self.old }
    {
        self.mark(Mark::Element);
        self.mark(Mark::Test);
    }

    /// What stands in round brackets, past the first. An empty pair is a tuple.
    #[cycle(expressions)]
    #[tactic(auto, using(py_descent::proofs::Each::unfold_group, crate::proofs::Pushes::bind_gives))]
    pub(crate) fn group(&mut self, line: LineNo) -> Result<Expr, ParseFault>
        ensures gives { Gives expr_view result self.new (descent (group line) self.old) }
        ensures shrinks { OnOk result (room self.new < room self.old) }
    {
        if self.eat_op(Op::RightParen) {
            let items = Vec::new(self.alloc());
            return self.tuple(items, line);
        }
        let inner = self.tests()?;
        self.expect_op(Op::RightParen)?;
        Ok(inner)
    }

    #[cycle(expressions)]
    #[tactic(auto, using(py_descent::proofs::Each::unfold_list_display, crate::proofs::Pushes::bind_gives))]
    pub(crate) fn list_display(&mut self, line: LineNo) -> Result<Expr, ParseFault>
        ensures gives { Gives expr_view result self.new (descent (list_display line) self.old) }
        ensures shrinks { OnOk result (room self.new < room self.old) }
    {
        let mut items = Vec::new(self.alloc());
        self.more_tests(&mut items)?;
        self.expect_op(Op::RightSquare)?;
        self.list(items, line)
    }

    #[cycle(expressions)]
    #[tactic(auto, using(py_descent::proofs::Each::unfold_dict_display, crate::proofs::Pushes::bind_gives))]
    pub(crate) fn dict_display(&mut self, line: LineNo) -> Result<Expr, ParseFault>
        ensures gives { Gives expr_view result self.new (descent (dict_display line) self.old) }
        ensures shrinks { OnOk result (room self.new < room self.old) }
    {
        let pairs = self.pairs()?;
        self.expect_op(Op::RightBrace)?;
        self.dict(pairs, line)
    }

    #[cycle(expressions)]
    #[tactic(auto, using(py_descent::proofs::Each::unfold_pairs, crate::proofs::Pushes::bind_gives, crate::proofs::Pushes::pairs_push))]
    fn pairs(&mut self) -> Result<Vec<Pair>, ParseFault>
        ensures gives { Gives (λ ps. pairs_view ps.items) result self.new (descent (pairs no_pairs) self.old) }
        ensures shrinks { OnOk result (room self.new ≤ room self.old) }
    {
        let mut pairs = Vec::new(self.alloc());
        while !self.at_op(Op::RightBrace) {
            let pair = self.pair(pairs.is_empty())?;
            pairs.push(pair)?;
            if !self.eat_op(Op::Comma) {
                break;
            }
        }
        Ok(pairs)
    }

    #[cycle(expressions)]
    fn pair(&mut self, first: bool) -> Result<Pair, ParseFault>
        ensures gives { Gives pair_view result self.new (run (call test (λ k. expect (symbol Op.Colon) (call test (λ v. give (k, v))))) self.old) }
        ensures shrinks { OnOk result (room self.new < room self.old) }
    {
        self.mark(Mark::Element);
        let key = self.test()?;
        if first {
            self.mark(Mark::FirstColon);
        }
        self.expect_op(Op::Colon)?;
        let value = self.test()?;
        Ok(Pair { key, value })
    }
}

//! Tests: choices, `or`, `and`, `not` and comparisons ("Conditional expressions", "Boolean operations", "Comparisons").
ghost use Rattle.std.specs.Prelude.{◌≡◌, ◌≤◌, ◌<◌, Some, OnOk};
ghost use Rattle.py_descent.specs.Bodies.{compared};
ghost use Rattle.py_descent.specs.Descent.{descent};
ghost use Rattle.py_descent.specs.Goals.{test, choice, disjunction, disjunctions, conjunction, conjunctions, inversion, comparison, compare_operator, tests, tests_after, more_tests};
ghost use Rattle.py_descent.specs.Programs.{room};
ghost use Rattle.py_tree.specs.View.{expr_view, exprs_view};
ghost use Rattle.py_parse.specs.Gives.{Gives, run, same};

use crate::fault::ParseFault;
use crate::marks::Mark;
use crate::parser::Parser;
use place_ids::{CompareOp, LineNo};
use py_tokens::{Keyword, Op};
use py_tree::Expr;

impl<'t> Parser<'t> {
    #[cycle(expressions)]
    #[tactic(auto, using(py_descent::proofs::Each::unfold_test, crate::proofs::Pushes::bind_gives))]
    pub(crate) fn test(&mut self) -> Result<Expr, ParseFault>
        ensures gives { Gives expr_view result self.new (descent test self.old) }
        ensures shrinks { OnOk result (room self.new < room self.old) }
    {
        self.mark(Mark::Test);
        let line = self.line();
        let first = self.disjunction()?;
        if self.eat_keyword(Keyword::KwIf) {
            self.choice(first, line)
        } else {
            Ok(first)
        }
    }

    #[cycle(expressions)]
    #[tactic(auto, using(py_descent::proofs::Each::unfold_choice, crate::proofs::Pushes::bind_gives))]
    fn choice(&mut self, then: Expr, line: LineNo) -> Result<Expr, ParseFault>
        ensures gives { Gives expr_view result self.new (descent (choice line (expr_view then)) self.old) }
        ensures shrinks { OnOk result (room self.new < room self.old) }
    {
        let test = self.disjunction()?;
        self.expect_keyword(Keyword::KwElse)?;
        let other = self.test()?;
        self.choose(then, test, other, line)
    }

    #[cycle(expressions)]
    #[tactic(auto, using(py_descent::proofs::Each::unfold_disjunction, crate::proofs::Pushes::bind_gives))]
    fn disjunction(&mut self) -> Result<Expr, ParseFault>
        ensures gives { Gives expr_view result self.new (descent disjunction self.old) }
        ensures shrinks { OnOk result (room self.new < room self.old) }
    {
        let line = self.line();
        let first = self.conjunction()?;
        self.disjunctions(first, line)
    }

    #[cycle(expressions)]
    #[tactic(auto, using(py_descent::proofs::Each::unfold_disjunctions, crate::proofs::Pushes::bind_gives))]
    fn disjunctions(&mut self, first: Expr, line: LineNo) -> Result<Expr, ParseFault>
        ensures gives { Gives expr_view result self.new (descent (disjunctions line (expr_view first)) self.old) }
        ensures shrinks { OnOk result (room self.new ≤ room self.old) }
    {
        let mut all = first;
        while self.eat_keyword(Keyword::KwOr) {
            let right = self.conjunction()?;
            all = self.or(all, right, line)?;
        }
        Ok(all)
    }

    #[cycle(expressions)]
    #[tactic(auto, using(py_descent::proofs::Each::unfold_conjunction, crate::proofs::Pushes::bind_gives))]
    fn conjunction(&mut self) -> Result<Expr, ParseFault>
        ensures gives { Gives expr_view result self.new (descent conjunction self.old) }
        ensures shrinks { OnOk result (room self.new < room self.old) }
    {
        let line = self.line();
        let first = self.inversion()?;
        self.conjunctions(first, line)
    }

    #[cycle(expressions)]
    #[tactic(auto, using(py_descent::proofs::Each::unfold_conjunctions, crate::proofs::Pushes::bind_gives))]
    fn conjunctions(&mut self, first: Expr, line: LineNo) -> Result<Expr, ParseFault>
        ensures gives { Gives expr_view result self.new (descent (conjunctions line (expr_view first)) self.old) }
        ensures shrinks { OnOk result (room self.new ≤ room self.old) }
    {
        let mut all = first;
        while self.eat_keyword(Keyword::KwAnd) {
            let right = self.inversion()?;
            all = self.and(all, right, line)?;
        }
        Ok(all)
    }

    #[cycle(expressions)]
    #[tactic(auto, using(py_descent::proofs::Each::unfold_inversion, crate::proofs::Pushes::bind_gives))]
    fn inversion(&mut self) -> Result<Expr, ParseFault>
        ensures gives { Gives expr_view result self.new (descent inversion self.old) }
        ensures shrinks { OnOk result (room self.new < room self.old) }
    {
        let line = self.line();
        if self.eat_keyword(Keyword::KwNot) {
            let operand = self.inversion()?;
            self.not(operand, line)
        } else {
            self.comparison()
        }
    }

    #[cycle(expressions)]
    #[tactic(auto, using(py_descent::proofs::Each::unfold_comparison, crate::proofs::Pushes::bind_gives))]
    fn comparison(&mut self) -> Result<Expr, ParseFault>
        ensures gives { Gives expr_view result self.new (descent comparison self.old) }
        ensures shrinks { OnOk result (room self.new < room self.old) }
    {
        let line = self.line();
        let left = self.operation(0)?;
        match self.comparison_operator()? {
            Some(op) => self.compared(op, left, line),
            None => Ok(left),
        }
    }

    // A comparison, past its operator.
    #[cycle(expressions)]
    fn compared(&mut self, op: CompareOp, left: Expr, line: LineNo) -> Result<Expr, ParseFault>
        ensures gives { Gives expr_view result self.new (run (compared line (expr_view left) (Some op)) self.old) }
        ensures shrinks { OnOk result (room self.new < room self.old) }
    {
        let right = self.operation(0)?;
        self.mark(Mark::Comparison);
        self.compare(op, left, right, line)
    }

    #[tactic(auto, using(py_descent::proofs::Each::unfold_compare_operator, crate::proofs::Pushes::bind_gives))]
    fn comparison_operator(&mut self) -> Result<Option<CompareOp>, ParseFault>
        ensures gives { Gives same result self.new (descent compare_operator self.old) }
        ensures shrinks { OnOk result (room self.new ≤ room self.old) }
    {
        if let Some(op) = self.eat_compare() {
            return Ok(Some(op));
        }
        if self.eat_keyword(Keyword::KwIs) {
            if self.eat_keyword(Keyword::KwNot) {
                return Ok(Some(CompareOp::IsNot));
            }
            return Ok(Some(CompareOp::Is));
        }
        if self.eat_keyword(Keyword::KwIn) {
            return Ok(Some(CompareOp::Within));
        }
        if self.eat_keyword(Keyword::KwNot) {
            self.expect_keyword(Keyword::KwIn)?;
            return Ok(Some(CompareOp::NotWithin));
        }
        Ok(None)
    }

    /// Tests, which are a tuple where a comma stands after the first ("Expression lists").
    #[cycle(expressions)]
    #[tactic(auto, using(py_descent::proofs::Each::unfold_tests, crate::proofs::Pushes::bind_gives))]
    pub(crate) fn tests(&mut self) -> Result<Expr, ParseFault>
        ensures gives { Gives expr_view result self.new (descent tests self.old) }
        ensures shrinks { OnOk result (room self.new < room self.old) }
    {
        self.mark(Mark::Element);
        let line = self.line();
        let first = self.test()?;
        self.tests_after(first, line)
    }

    #[cycle(expressions)]
    #[tactic(auto, using(py_descent::proofs::Each::unfold_tests_after, crate::proofs::Pushes::bind_gives, crate::proofs::Pushes::exprs_push))]
    pub(crate) fn tests_after(&mut self, first: Expr, line: LineNo) -> Result<Expr, ParseFault>
        ensures gives { Gives expr_view result self.new (descent (tests_after line (expr_view first)) self.old) }
        ensures shrinks { OnOk result (room self.new ≤ room self.old) }
    {
        if !self.eat_op(Op::Comma) {
            return Ok(first);
        }
        let mut items = Vec::new(self.alloc());
        items.push(first)?;
        self.more_tests(&mut items)?;
        self.tuple(items, line)
    }

    /// Tests with a comma after each but the last, as long as there are some.
    #[cycle(expressions)]
    #[tactic(auto, using(py_descent::proofs::Each::unfold_more_tests, crate::proofs::Pushes::bind_gives, crate::proofs::Pushes::exprs_push))]
    pub(crate) fn more_tests(&mut self, items: &mut Vec<Expr>) -> Result<(), ParseFault>
        ensures gives { Gives (λ _. exprs_view items.new.items) result self.new (descent (more_tests (exprs_view items.old.items)) self.old) }
        ensures shrinks { OnOk result (room self.new ≤ room self.old) }
    {
        self.mark_element();
        while self.starts_test() {
            let item = self.test()?;
            items.push(item)?;
            if !self.eat_op(Op::Comma) {
                break;
            }
            self.mark_element();
        }
        Ok(())
    }
}

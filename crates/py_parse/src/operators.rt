//! Operators and their operands ("The power operator", "Unary arithmetic and bitwise operations", "Binary arithmetic operations").
ghost use Rattle.std.specs.Prelude.{◌≡◌, ◌≤◌, ◌<◌, OnOk, MatchOption, IfSome};
ghost use Rattle.py_descent.specs.Descent.{descent};
ghost use Rattle.py_descent.specs.Goals.{operation, operations, factor, power};
ghost use Rattle.py_descent.specs.Programs.{said, room};
ghost use Rattle.py_descent.specs.Takings.{unary_in, binary_in, compare_in, augment_in};
ghost use Rattle.py_tree.specs.View.{expr_view};
ghost use Rattle.py_parse.specs.Gives.{Gives, behind};

use crate::fault::ParseFault;
use crate::parser::Parser;
use crate::symbols::{augment_operator, binary_operator, compare_operator, unary_operator};
use place_ids::{BinOp, CompareOp, LineNo, UnaryOp};
use py_tokens::Op;
use py_tree::Expr;

impl<'t> Parser<'t> {
    #[tactic(auto, unfolding(py_descent::specs::Programs::said))]
    fn binary_here(&self, least: u32) -> Option<(u32, BinOp)>
        ensures said { result ≡ said (binary_in least) self.now }
        ensures small { IfSome result (λ row. row.0 < 6) }
    {
        match self.op() {
            Some(op) => match binary_operator(op) {
                Some((level, binary)) if level >= least => Some((level, binary)),
                _ => None,
            },
            None => None,
        }
    }

    #[tactic(auto, unfolding(py_descent::specs::Programs::said))]
    fn unary_here(&self) -> Option<UnaryOp>
        ensures { result ≡ said unary_in self.now }
    {
        match self.op() {
            Some(op) => unary_operator(op),
            None => None,
        }
    }

    #[tactic(auto, unfolding(py_descent::specs::Programs::said))]
    fn compare_here(&self) -> Option<CompareOp>
        ensures { result ≡ said compare_in self.now }
    {
        match self.op() {
            Some(op) => compare_operator(op),
            None => None,
        }
    }

    #[tactic(auto, unfolding(py_descent::specs::Programs::said))]
    fn augment_here(&self) -> Option<BinOp>
        ensures { result ≡ said augment_in self.now }
    {
        match self.op() {
            Some(op) => augment_operator(op),
            None => None,
        }
    }

    // Goes past an operator of two operands that binds at least so tight, and answers how tight it does.
    fn eat_binary(&mut self, least: u32) -> Option<(u32, BinOp)>
        ensures said { result ≡ said (binary_in least) self.old }
        ensures small { IfSome result (λ row. row.0 < 6) }
        ensures moved { self.new ≡ behind (said (binary_in least) self.old) self.old }
        ensures shrinks { MatchOption result (self.new ≡ self.old) (λ _. room self.new < room self.old) }
    {
        let found = self.binary_here(least);
        self.advance_if(found.is_some());
        found
    }

    // Goes past an operator that stands before its one operand.
    fn eat_unary(&mut self) -> Option<UnaryOp>
        ensures said { result ≡ said unary_in self.old }
        ensures moved { self.new ≡ behind (said unary_in self.old) self.old }
        ensures shrinks { MatchOption result (self.new ≡ self.old) (λ _. room self.new < room self.old) }
    {
        let found = self.unary_here();
        self.advance_if(found.is_some());
        found
    }

    /// Goes past a comparison of one operator token.
    pub(crate) fn eat_compare(&mut self) -> Option<CompareOp>
        ensures said { result ≡ said compare_in self.old }
        ensures moved { self.new ≡ behind (said compare_in self.old) self.old }
        ensures shrinks { MatchOption result (self.new ≡ self.old) (λ _. room self.new < room self.old) }
    {
        let found = self.compare_here();
        self.advance_if(found.is_some());
        found
    }

    /// The operator of an augmented assignment, if one stands at the place.
    pub(crate) fn augment_op(&self) -> Option<BinOp>
        ensures { result ≡ said augment_in self.now }
    {
        self.augment_here()
    }

    /// Goes past the operator of an augmented assignment.
    pub(crate) fn eat_augment(&mut self) -> Option<BinOp>
        ensures said { result ≡ said augment_in self.old }
        ensures moved { self.new ≡ behind (said augment_in self.old) self.old }
        ensures shrinks { MatchOption result (self.new ≡ self.old) (λ _. room self.new < room self.old) }
    {
        let found = self.augment_here();
        self.advance_if(found.is_some());
        found
    }

    /// Operands and the operators between them that bind at least so tight.
    #[cycle(expressions)]
    #[tactic(auto, using(py_descent::proofs::Each::unfold_operation, crate::proofs::Pushes::bind_gives))]
    pub(crate) fn operation(&mut self, least: u32) -> Result<Expr, ParseFault>
        ensures gives { Gives expr_view result self.new (descent (operation least) self.old) }
        ensures shrinks { OnOk result (room self.new < room self.old) }
    {
        let line = self.line();
        let first = self.factor()?;
        self.operations(least, first, line)
    }

    #[cycle(expressions)]
    #[tactic(auto, using(py_descent::proofs::Each::unfold_operations, crate::proofs::Pushes::bind_gives))]
    fn operations(&mut self, least: u32, first: Expr, line: LineNo) -> Result<Expr, ParseFault>
        ensures gives { Gives expr_view result self.new (descent (operations least line (expr_view first)) self.old) }
        ensures shrinks { OnOk result (room self.new ≤ room self.old) }
    {
        let mut all = first;
        while let Some((level, op)) = self.eat_binary(least) {
            let right = self.operation(level + 1)?;
            all = self.binary(op, all, right, line)?;
        }
        Ok(all)
    }

    #[cycle(expressions)]
    #[tactic(auto, using(py_descent::proofs::Each::unfold_factor, crate::proofs::Pushes::bind_gives))]
    fn factor(&mut self) -> Result<Expr, ParseFault>
        ensures gives { Gives expr_view result self.new (descent factor self.old) }
        ensures shrinks { OnOk result (room self.new < room self.old) }
    {
        let line = self.line();
        match self.eat_unary() {
            Some(op) => {
                let operand = self.factor()?;
                self.unary(op, operand, line)
            }
            None => self.power(),
        }
    }

    #[cycle(expressions)]
    #[tactic(auto, using(py_descent::proofs::Each::unfold_power, crate::proofs::Pushes::bind_gives))]
    fn power(&mut self) -> Result<Expr, ParseFault>
        ensures gives { Gives expr_view result self.new (descent power self.old) }
        ensures shrinks { OnOk result (room self.new < room self.old) }
    {
        let line = self.line();
        let base = self.primary()?;
        if self.eat_op(Op::DoubleStar) {
            let exponent = self.factor()?;
            self.binary(BinOp::Pow, base, exponent, line)
        } else {
            Ok(base)
        }
    }
}

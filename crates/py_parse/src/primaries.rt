//! Primaries: atoms, and the attributes, items, slices and calls after them ("Primaries").
ghost use Rattle.std.specs.Prelude.{◌≡◌, ◌≤◌, ◌<◌, OnOk};
ghost use Rattle.py_descent.specs.Bodies.{made_at};
ghost use Rattle.py_descent.specs.Descent.{descent};
ghost use Rattle.py_descent.specs.Goals.{plain_name, strings, octets, primary, trailers, subscript, slice, stride, bounds, atom, variable, super_rest};
ghost use Rattle.py_descent.specs.Programs.{call, room};
ghost use Rattle.py_tree.specs.declared.literal.Literal.TheVariants as lit;
ghost use Rattle.py_tree.specs.Tree as tree;
ghost use Rattle.py_tree.specs.View.{expr_view};
ghost use Rattle.py_parse.specs.Atoms.{number_or_brackets, text_or_brackets, octets_or_brackets, brackets_or_name, list_or_name, dict_or_name, super_name};
ghost use Rattle.py_parse.specs.Gives.{Gives, run, part_view};

use crate::fault::ParseFault;
use crate::marks::Mark;
use crate::parser::Parser;
use place_ids::LineNo;
use py_tokens::Op;
use py_tree::{Expr, ExprKind, Literal};

impl<'t> Parser<'t> {
    #[cycle(expressions)]
    #[tactic(auto, using(py_descent::proofs::Each::unfold_primary, crate::proofs::Pushes::bind_gives))]
    pub(crate) fn primary(&mut self) -> Result<Expr, ParseFault>
        ensures gives { Gives expr_view result self.new (descent primary self.old) }
        ensures shrinks { OnOk result (room self.new < room self.old) }
    {
        let line = self.line();
        let first = self.atom()?;
        self.trailers(first, line)
    }

    #[cycle(expressions)]
    #[tactic(auto, using(py_descent::proofs::Each::unfold_trailers, crate::proofs::Pushes::bind_gives))]
    fn trailers(&mut self, first: Expr, line: LineNo) -> Result<Expr, ParseFault>
        ensures gives { Gives expr_view result self.new (descent (trailers line (expr_view first)) self.old) }
        ensures shrinks { OnOk result (room self.new ≤ room self.old) }
    {
        let mut all = first;
        loop {
            if self.eat_op(Op::Dot) {
                all = self.attribute(all, line)?;
            } else if self.eat_op(Op::LeftParen) {
                all = self.call(all, line)?;
            } else if self.eat_op(Op::LeftSquare) {
                all = self.subscript(all, line)?;
            } else {
                return Ok(all);
            }
        }
    }

    fn attribute(&mut self, object: Expr, line: LineNo) -> Result<Expr, ParseFault>
        ensures gives { Gives expr_view result self.new (run (call plain_name (λ n. made_at line (tree.attr (expr_view object) n))) self.old) }
        ensures shrinks { OnOk result (room self.new < room self.old) }
    {
        let name = self.attribute_name()?;
        let object = Box::new(self.alloc(), object)?;
        self.expr(ExprKind::Attr(object, name), line)
    }

    #[cycle(expressions)]
    #[tactic(auto, using(py_descent::proofs::Each::unfold_subscript, crate::proofs::Pushes::bind_gives))]
    fn subscript(&mut self, object: Expr, line: LineNo) -> Result<Expr, ParseFault>
        ensures gives { Gives expr_view result self.new (descent (subscript line (expr_view object)) self.old) }
        ensures shrinks { OnOk result (room self.new < room self.old) }
    {
        if self.eat_op(Op::Colon) {
            return self.slice(object, None, line);
        }
        self.mark(Mark::Element);
        let index_line = self.line();
        let index = self.test()?;
        if self.eat_op(Op::Colon) {
            return self.slice(object, Some(index), line);
        }
        let index = self.tests_after(index, index_line)?;
        self.expect_op(Op::RightSquare)?;
        self.item(object, index, line)
    }

    // A slice, past its first colon.
    #[cycle(expressions)]
    #[tactic(auto, using(py_descent::proofs::Each::unfold_slice, crate::proofs::Pushes::bind_gives))]
    fn slice(&mut self, object: Expr, lower: Option<Expr>, line: LineNo) -> Result<Expr, ParseFault>
        ensures gives { Gives expr_view result self.new (descent (slice line (expr_view object) (part_view lower)) self.old) }
        ensures shrinks { OnOk result (room self.new < room self.old) }
    {
        let upper = self.bound()?;
        let step = self.step()?;
        self.expect_op(Op::RightSquare)?;
        self.mark(Mark::Slice);
        self.sliced(object, lower, upper, step, line)
    }

    #[cycle(expressions)]
    #[tactic(auto, using(py_descent::proofs::Each::unfold_stride, crate::proofs::Pushes::bind_gives))]
    fn step(&mut self) -> Result<Option<Expr>, ParseFault>
        ensures gives { Gives part_view result self.new (descent stride self.old) }
        ensures shrinks { OnOk result (room self.new ≤ room self.old) }
    {
        if self.eat_op(Op::Colon) {
            self.bound()
        } else {
            Ok(None)
        }
    }

    #[cycle(expressions)]
    #[tactic(auto, using(py_descent::proofs::Each::unfold_bounds, crate::proofs::Pushes::bind_gives))]
    fn bound(&mut self) -> Result<Option<Expr>, ParseFault>
        ensures gives { Gives part_view result self.new (descent bounds self.old) }
        ensures shrinks { OnOk result (room self.new ≤ room self.old) }
    {
        self.mark(Mark::Test);
        if self.starts_test() {
            let bound = self.test()?;
            Ok(Some(bound))
        } else {
            Ok(None)
        }
    }

    // Literals, names, and what begins with a bracket ("Atoms").
    #[cycle(expressions)]
    #[tactic(auto, using(py_descent::proofs::Each::unfold_atom, crate::proofs::Pushes::bind_gives))]
    fn atom(&mut self) -> Result<Expr, ParseFault>
        ensures gives { Gives expr_view result self.new (descent atom self.old) }
        ensures shrinks { OnOk result (room self.new < room self.old) }
    {
        let line = self.line();
        match self.eat_constant() {
            Some(literal) => self.literal_expr(literal, line),
            None => self.number_atom(line),
        }
    }

    #[cycle(expressions)]
    fn number_atom(&mut self, line: LineNo) -> Result<Expr, ParseFault>
        ensures gives { Gives expr_view result self.new (run (number_or_brackets line) self.old) }
        ensures shrinks { OnOk result (room self.new < room self.old) }
    {
        match self.eat_number(false) {
            Some(literal) => self.literal_expr(literal, line),
            None => self.text_atom(line),
        }
    }

    #[cycle(expressions)]
    fn text_atom(&mut self, line: LineNo) -> Result<Expr, ParseFault>
        ensures gives { Gives expr_view result self.new (run (text_or_brackets line) self.old) }
        ensures shrinks { OnOk result (room self.new < room self.old) }
    {
        match self.eat_string() {
            Some(first) => self.text_expr(first, line),
            None => self.bytes_atom(line),
        }
    }

    #[cycle(expressions)]
    fn bytes_atom(&mut self, line: LineNo) -> Result<Expr, ParseFault>
        ensures gives { Gives expr_view result self.new (run (octets_or_brackets line) self.old) }
        ensures shrinks { OnOk result (room self.new < room self.old) }
    {
        match self.eat_bytes() {
            Some(first) => self.octets_expr(first, line),
            None => self.bracketed(line),
        }
    }

    #[cycle(expressions)]
    #[tactic(auto, using(crate::proofs::Pushes::bind_gives))]
    fn bracketed(&mut self, line: LineNo) -> Result<Expr, ParseFault>
        ensures gives { Gives expr_view result self.new (run (brackets_or_name line) self.old) }
        ensures shrinks { OnOk result (room self.new < room self.old) }
    {
        if self.eat_op(Op::LeftParen) {
            self.group(line)
        } else {
            self.list_atom(line)
        }
    }

    #[cycle(expressions)]
    #[tactic(auto, using(crate::proofs::Pushes::bind_gives))]
    fn list_atom(&mut self, line: LineNo) -> Result<Expr, ParseFault>
        ensures gives { Gives expr_view result self.new (run (list_or_name line) self.old) }
        ensures shrinks { OnOk result (room self.new < room self.old) }
    {
        if self.eat_op(Op::LeftSquare) {
            self.list_display(line)
        } else {
            self.dict_atom(line)
        }
    }

    #[cycle(expressions)]
    #[tactic(auto, using(crate::proofs::Pushes::bind_gives))]
    fn dict_atom(&mut self, line: LineNo) -> Result<Expr, ParseFault>
        ensures gives { Gives expr_view result self.new (run (dict_or_name line) self.old) }
        ensures shrinks { OnOk result (room self.new < room self.old) }
    {
        if self.eat_op(Op::LeftBrace) {
            self.dict_display(line)
        } else {
            self.variable(line)
        }
    }

    fn literal_expr(&mut self, literal: Literal, line: LineNo) -> Result<Expr, ParseFault>
        ensures gives { Gives expr_view result self.new (run (made_at line (tree.literal literal)) self.old) }
        ensures shrinks { OnOk result (room self.new ≤ room self.old) }
    {
        self.expr(ExprKind::Literal(literal), line)
    }

    // Texts that stand side by side, past the first.
    fn text_expr(&mut self, first: bool, line: LineNo) -> Result<Expr, ParseFault>
        ensures gives { Gives expr_view result self.new (run (call (strings first) (λ b. made_at line (tree.literal (lit.Str b)))) self.old) }
        ensures shrinks { OnOk result (room self.new ≤ room self.old) }
    {
        let empty = self.strings(first);
        self.expr(ExprKind::Literal(Literal::Str(empty)), line)
    }

    fn octets_expr(&mut self, first: bool, line: LineNo) -> Result<Expr, ParseFault>
        ensures gives { Gives expr_view result self.new (run (call (octets first) (λ b. made_at line (tree.literal (lit.Bytes b)))) self.old) }
        ensures shrinks { OnOk result (room self.new ≤ room self.old) }
    {
        let empty = self.octets(first);
        self.expr(ExprKind::Literal(Literal::Bytes(empty)), line)
    }

    #[tactic(auto, using(py_descent::proofs::Each::unfold_variable, crate::proofs::Pushes::bind_gives, crate::proofs::Rounds::same_super))]
    fn variable(&mut self, line: LineNo) -> Result<Expr, ParseFault>
        ensures gives { Gives expr_view result self.new (descent (variable line) self.old) }
        ensures shrinks { OnOk result (room self.new < room self.old) }
    {
        let name = self.name()?;
        if self.is_super(name) {
            return self.super_form(line);
        }
        self.name_expr(name, line)
    }

    // `super().name`, past its first word.
    #[tactic(auto, using(py_descent::proofs::Each::unfold_super_rest, crate::proofs::Pushes::bind_gives))]
    fn super_form(&mut self, line: LineNo) -> Result<Expr, ParseFault>
        ensures gives { Gives expr_view result self.new (descent (super_rest line) self.old) }
        ensures shrinks { OnOk result (room self.new < room self.old) }
    {
        self.mark(Mark::Super);
        self.expect_op(Op::LeftParen)?;
        self.mark(Mark::Super);
        self.expect_op(Op::RightParen)?;
        self.super_name(line)
    }

    // The name behind `super()`.
    fn super_name(&mut self, line: LineNo) -> Result<Expr, ParseFault>
        ensures gives { Gives expr_view result self.new (run (super_name line) self.old) }
        ensures shrinks { OnOk result (room self.new < room self.old) }
    {
        self.mark(Mark::Super);
        self.expect_op(Op::Dot)?;
        self.mark(Mark::Super);
        let name = self.attribute_name()?;
        self.expr(ExprKind::Super(name), line)
    }
}

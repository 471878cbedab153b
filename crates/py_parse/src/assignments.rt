//! Assignments, and expressions that stand alone ("Assignment statements", "Expression statements").
ghost use Rattle.std.specs.Prelude.{◌≡◌, ◌≤◌, ◌<◌, ◌&&◌, not, OnOk};
ghost use Rattle.py_descent.specs.Bodies.{and_expr, after_name, expect, is_single, is_target};
ghost use Rattle.py_descent.specs.Codes.{at, symbol};
ghost use Rattle.py_descent.specs.Descent.{descent};
ghost use Rattle.py_descent.specs.Goals.{annotated, assigned, assignment, tests};
ghost use Rattle.py_descent.specs.Programs.{call, choose, eat, give, refuse, room, take};
ghost use Rattle.py_descent.specs.Takings.{augment_in};
ghost use Rattle.py_grammar.specs.Statements.{is_plural};
ghost use Rattle.py_tree.specs.Tree as tree;
ghost use Rattle.py_tree.specs.Tree.{expr, no_exprs};
ghost use Rattle.py_tree.specs.View.{expr_view, exprs_view, stmt_kind_view};
ghost use Rattle.py_parse.specs.Gives.{Gives, run};

use crate::fault::ParseFault;
use crate::parser::Parser;
use crate::targets::{is_named_target, is_single_target, is_target};
use py_tokens::Op;
use py_tree::{Expr, StmtKind};

impl<'t> Parser<'t> {
    /// Tests, and what is assigned to them.
    #[tactic(auto, using(py_descent::proofs::Each::unfold_assignment, crate::proofs::Pushes::bind_gives))]
    pub(crate) fn assignment(&mut self) -> Result<StmtKind, ParseFault>
        ensures gives { Gives stmt_kind_view result self.new (descent assignment self.old) }
        ensures shrinks { OnOk result (room self.new < room self.old) }
    {
        let first = self.tests()?;
        if self.at_op(Op::Assign) {
            self.assign(first)
        } else {
            self.augmented(first)
        }
    }

    #[tactic(auto, using(crate::proofs::Pushes::bind_gives))]
    fn assign(&mut self, first: Expr) -> Result<StmtKind, ParseFault>
        ensures gives { Gives stmt_kind_view result self.new (run (choose (is_target (expr_view first)) (expect (symbol Op.Assign) (call (assigned (expr (expr_view first) no_exprs)) give)) refuse) self.old) }
        ensures shrinks { OnOk result (room self.new < room self.old) }
    {
        let mut targets = Vec::new(self.alloc());
        self.target_of(first, &mut targets)?;
        self.assigned(targets)
    }

    // A target, and `=` after it.
    #[tactic(auto, using(crate::proofs::Pushes::exprs_push))]
    fn target_of(&mut self, target: Expr, targets: &mut Vec<Expr>) -> Result<(), ParseFault>
        ensures gives { Gives (λ _. exprs_view targets.new.items) result self.new (run (choose (is_target (expr_view target)) (expect (symbol Op.Assign) (give (and_expr (exprs_view targets.old.items) (expr_view target)))) refuse) self.old) }
        ensures shrinks { OnOk result (room self.new < room self.old) }
    {
        if !is_target(&target) {
            return Err(self.refuse());
        }
        self.expect_op(Op::Assign)?;
        targets.push(target)?;
        Ok(())
    }

    // What is assigned to targets, which may be further targets.
    #[tactic(auto, using(py_descent::proofs::Each::unfold_assigned, crate::proofs::Pushes::bind_gives))]
    fn assigned(&mut self, before: Vec<Expr>) -> Result<StmtKind, ParseFault>
        ensures gives { Gives stmt_kind_view result self.new (descent (assigned (exprs_view before.items)) self.old) }
        ensures shrinks { OnOk result (room self.new < room self.old) }
    {
        let mut targets = before;
        loop {
            let value = self.tests()?;
            if !self.at_op(Op::Assign) {
                return Ok(StmtKind::Assign(targets, value));
            }
            self.target_of(value, &mut targets)?;
        }
    }

    // What stands after tests that no `=` follows.
    #[tactic(auto, using(crate::proofs::Pushes::bind_gives))]
    fn augmented(&mut self, first: Expr) -> Result<StmtKind, ParseFault>
        ensures gives { Gives stmt_kind_view result self.new
            (run (take augment_in (λ op. choose (is_target (expr_view first) && not (is_plural (expr_view first))) (call tests (λ value. give (tree.augment (expr_view first) op value))) refuse)
            (eat (symbol Op.Colon) (choose (is_single (expr_view first) && after_name self.old) (call (annotated (expr_view first)) give) refuse)
            (give (tree.expression (expr_view first))))) self.old) }
        ensures shrinks { OnOk result (room self.new ≤ room self.old) }
    {
        if self.augment_op().is_some() && !is_single_target(&first) {
            return Err(self.refuse());
        }
        match self.eat_augment() {
            Some(op) => {
                let value = self.tests()?;
                Ok(StmtKind::Augment(first, op, value))
            }
            None => self.maybe_annotated(first),
        }
    }

    // An annotation is only that of a name or an attribute that doesn't end with a bracket.
    #[tactic(auto, using(crate::proofs::Pushes::bind_gives))]
    fn maybe_annotated(&mut self, first: Expr) -> Result<StmtKind, ParseFault>
        ensures gives { Gives stmt_kind_view result self.new
            (run (eat (symbol Op.Colon) (choose (is_single (expr_view first) && after_name self.old) (call (annotated (expr_view first)) give) refuse)
            (give (tree.expression (expr_view first)))) self.old) }
        ensures shrinks { OnOk result (room self.new ≤ room self.old) }
    {
        if !self.at_op(Op::Colon) {
            return Ok(StmtKind::Expression(first));
        }
        if !(is_named_target(&first) && self.follows_word()) {
            return Err(self.refuse());
        }
        self.expect_op(Op::Colon)?;
        self.annotated(first)
    }

    #[tactic(auto, using(py_descent::proofs::Each::unfold_annotated, crate::proofs::Pushes::bind_gives, py_tree::proofs::StatementViews::view_annotated))]
    fn annotated(&mut self, target: Expr) -> Result<StmtKind, ParseFault>
        ensures gives { Gives stmt_kind_view result self.new (descent (annotated (expr_view target)) self.old) }
        ensures shrinks { OnOk result (room self.new < room self.old) }
    {
        self.annotation()?;
        if self.eat_op(Op::Assign) {
            let value = self.tests()?;
            return Ok(StmtKind::Annotated(target, Some(value)));
        }
        Ok(StmtKind::Annotated(target, None))
    }
}

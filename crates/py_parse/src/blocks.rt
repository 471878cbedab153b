//! Statements with blocks ("The if statement", "The while statement", "The for statement", "The try statement").
ghost use Rattle.std.specs.Prelude.{◌≡◌, ◌≤◌, ◌<◌, ◌||◌, if◌then◌else◌, false, OnOk};
ghost use Rattle.py_descent.specs.Bodies.{begins_compound, expect};
ghost use Rattle.py_descent.specs.Codes.{at, symbol, keyword, indent, dedent};
ghost use Rattle.py_descent.specs.Descent.{descent};
ghost use Rattle.py_descent.specs.Goals.{block, caught, compound, elifs, else_rest, for_rest, handlers, if_rest, statement, statements, try_rest, while_rest};
ghost use Rattle.py_descent.specs.Programs.{call, give, refuses, room};
ghost use Rattle.py_grammar.specs.Cursor.{past};
ghost use Rattle.py_tree.specs.Tree.{no_handlers};
ghost use Rattle.py_tree.specs.View.{arms_view, expr_view, handlers_view, stmt_kind_view, stmts_view};
ghost use Rattle.py_parse.specs.Gives.{Gives, run};

use crate::fault::ParseFault;
use crate::marks::Mark;
use crate::parser::Parser;
use place_ids::NameId;
use py_tokens::{Keyword, Op};
use py_tree::{Arm, Expr, Handler, Stmt, StmtKind};

impl<'t> Parser<'t> {
    pub(crate) fn at_compound(&self) -> bool
        ensures { result ≡ begins_compound self.now }
    {
        self.at_condition() || self.at_keyword(Keyword::KwFor) || self.at_keyword(Keyword::KwTry)
    }

    // Whether a statement begins with its test.
    fn at_condition(&self) -> bool
        ensures { result ≡ (at (keyword Keyword.KwIf) self.now || at (keyword Keyword.KwWhile) self.now) }
    {
        self.at_keyword(Keyword::KwIf) || self.at_keyword(Keyword::KwWhile)
    }

    #[cycle(statements)]
    #[tactic(auto, using(py_descent::proofs::Each::unfold_compound, crate::proofs::Pushes::bind_gives))]
    pub(crate) fn compound(&mut self) -> Result<StmtKind, ParseFault>
        ensures gives { Gives stmt_kind_view result self.new (descent compound self.old) }
        ensures shrinks { OnOk result (room self.new < room self.old) }
    {
        if self.eat_keyword(Keyword::KwIf) {
            return self.if_arms();
        }
        if self.eat_keyword(Keyword::KwWhile) {
            return self.while_loop();
        }
        if self.eat_keyword(Keyword::KwFor) {
            return self.for_loop();
        }
        self.expect_keyword(Keyword::KwTry)?;
        self.try_block()
    }

    /// A colon, and the statements of the block after it.
    #[cycle(statements)]
    #[tactic(auto, using(crate::proofs::Pushes::bind_gives))]
    pub(crate) fn body(&mut self) -> Result<Vec<Stmt>, ParseFault>
        ensures gives { Gives (λ body. stmts_view body.items) result self.new (if at (symbol Op.Colon) self.old then descent block (past self.old) else refuses) }
        ensures shrinks { OnOk result (room self.new < room self.old) }
    {
        self.expect_op(Op::Colon)?;
        self.block()
    }

    #[cycle(statements)]
    #[tactic(auto, using(py_descent::proofs::Each::unfold_block, crate::proofs::Pushes::bind_gives))]
    fn block(&mut self) -> Result<Vec<Stmt>, ParseFault>
        ensures gives { Gives (λ body. stmts_view body.items) result self.new (descent block self.old) }
        ensures shrinks { OnOk result (room self.new < room self.old) }
    {
        let mut body = Vec::new(self.alloc());
        if self.eat_newline() {
            self.indented(&mut body)?;
        } else {
            self.simple_line(&mut body)?;
        }
        Ok(body)
    }

    // The statements of a block on lines of their own.
    #[cycle(statements)]
    #[tactic(auto, using(crate::proofs::Pushes::bind_gives))]
    fn indented(&mut self, body: &mut Vec<Stmt>) -> Result<(), ParseFault>
        ensures gives { Gives (λ _. stmts_view body.new.items) result self.new (run (expect indent (call (statement false (stmts_view body.old.items)) (λ first. call (statements false first) (λ all. expect dedent (give all))))) self.old) }
        ensures shrinks { OnOk result (room self.new < room self.old) }
    {
        self.expect_indent()?;
        self.statement(body)?;
        self.statements(body)?;
        self.expect_dedent()
    }

    #[cycle(statements)]
    #[tactic(auto, using(py_descent::proofs::Each::unfold_if_rest, crate::proofs::Pushes::bind_gives, crate::proofs::Pushes::arms_push, py_tree::proofs::StatementViews::view_if, py_tree::proofs::StatementViews::view_arm))]
    fn if_arms(&mut self) -> Result<StmtKind, ParseFault>
        ensures gives { Gives stmt_kind_view result self.new (descent if_rest self.old) }
        ensures shrinks { OnOk result (room self.new < room self.old) }
    {
        let mut arms = Vec::new(self.alloc());
        let test = self.test()?;
        let body = self.body()?;
        arms.push(Arm { test, body })?;
        self.further_arms(&mut arms)?;
        let other = self.else_body()?;
        Ok(StmtKind::If(arms, other))
    }

    #[cycle(statements)]
    #[tactic(auto, using(py_descent::proofs::Each::unfold_elifs, crate::proofs::Pushes::bind_gives, crate::proofs::Pushes::arms_push, py_tree::proofs::StatementViews::view_arm))]
    fn further_arms(&mut self, arms: &mut Vec<Arm>) -> Result<(), ParseFault>
        ensures gives { Gives (λ _. arms_view arms.new.items) result self.new (descent (elifs (arms_view arms.old.items)) self.old) }
        ensures shrinks { OnOk result (room self.new ≤ room self.old) }
    {
        while self.eat_keyword(Keyword::KwElif) {
            let test = self.test()?;
            let body = self.body()?;
            arms.push(Arm { test, body })?;
        }
        Ok(())
    }

    // An `else` and its block, or nothing.
    #[cycle(statements)]
    #[tactic(auto, using(py_descent::proofs::Each::unfold_else_rest, crate::proofs::Pushes::bind_gives))]
    fn else_body(&mut self) -> Result<Vec<Stmt>, ParseFault>
        ensures gives { Gives (λ body. stmts_view body.items) result self.new (descent else_rest self.old) }
        ensures shrinks { OnOk result (room self.new ≤ room self.old) }
    {
        if self.eat_keyword(Keyword::KwElse) {
            self.body()
        } else {
            Ok(Vec::new(self.alloc()))
        }
    }

    #[cycle(statements)]
    #[tactic(auto, using(py_descent::proofs::Each::unfold_while_rest, crate::proofs::Pushes::bind_gives, py_tree::proofs::StatementViews::view_while))]
    fn while_loop(&mut self) -> Result<StmtKind, ParseFault>
        ensures gives { Gives stmt_kind_view result self.new (descent while_rest self.old) }
        ensures shrinks { OnOk result (room self.new < room self.old) }
    {
        let test = self.test()?;
        let body = self.body()?;
        self.mark(Mark::Loop);
        Ok(StmtKind::While(test, body))
    }

    #[cycle(statements)]
    #[tactic(auto, using(py_descent::proofs::Each::unfold_for_rest, crate::proofs::Pushes::bind_gives, py_tree::proofs::StatementViews::view_for))]
    fn for_loop(&mut self) -> Result<StmtKind, ParseFault>
        ensures gives { Gives stmt_kind_view result self.new (descent for_rest self.old) }
        ensures shrinks { OnOk result (room self.new < room self.old) }
    {
        let target = self.targets()?;
        self.expect_keyword(Keyword::KwIn)?;
        let iterable = self.tests()?;
        let body = self.body()?;
        self.mark(Mark::Loop);
        Ok(StmtKind::For(target, iterable, body))
    }

    #[cycle(statements)]
    #[tactic(auto, using(py_descent::proofs::Each::unfold_try_rest, crate::proofs::Pushes::bind_gives, py_tree::proofs::StatementViews::view_try))]
    fn try_block(&mut self) -> Result<StmtKind, ParseFault>
        ensures gives { Gives stmt_kind_view result self.new (descent try_rest self.old) }
        ensures shrinks { OnOk result (room self.new < room self.old) }
    {
        let body = self.body()?;
        let handlers = self.handlers()?;
        let other = self.else_body()?;
        Ok(StmtKind::Try(body, handlers, other))
    }

    // The `except` clauses. None follows one without a class.
    #[cycle(statements)]
    #[tactic(auto, using(py_descent::proofs::Each::unfold_handlers, crate::proofs::Pushes::bind_gives, crate::proofs::Pushes::handlers_push, py_tree::proofs::StatementViews::view_handler))]
    fn handlers(&mut self) -> Result<Vec<Handler>, ParseFault>
        ensures gives { Gives (λ handlers. handlers_view handlers.items) result self.new (descent (handlers no_handlers) self.old) }
        ensures shrinks { OnOk result (room self.new < room self.old) }
    {
        let mut handlers = Vec::new(self.alloc());
        loop {
            let line = self.line();
            self.expect_keyword(Keyword::KwExcept)?;
            if self.eat_op(Op::Colon) {
                let body = self.block()?;
                handlers.push(Handler {
                    class: None,
                    name: None,
                    body,
                    line,
                })?;
                return Ok(handlers);
            }
            let (class, name) = self.caught()?;
            let body = self.body()?;
            handlers.push(Handler {
                class: Some(class),
                name,
                body,
                line,
            })?;
            if !self.at_keyword(Keyword::KwExcept) {
                return Ok(handlers);
            }
        }
    }

    // What an `except` clause catches, and the name that it gets.
    #[tactic(auto, using(py_descent::proofs::Each::unfold_caught, crate::proofs::Pushes::bind_gives))]
    fn caught(&mut self) -> Result<(Expr, Option<NameId>), ParseFault>
        ensures gives { Gives (λ pair. (expr_view pair.0, pair.1)) result self.new (descent caught self.old) }
        ensures shrinks { OnOk result (room self.new < room self.old) }
    {
        let class = self.test()?;
        if self.eat_keyword(Keyword::KwAs) {
            let name = self.name()?;
            return Ok((class, Some(name)));
        }
        Ok((class, None))
    }
}

//! Statements ("Simple statements", "Compound statements").
ghost use Rattle.std.specs.Prelude.{◌≡◌, ◌≤◌, ◌<◌, true, false, [], OnOk};
ghost use Rattle.py_descent.specs.Bodies.{and_stmt, at_close};
ghost use Rattle.py_descent.specs.Codes.{keyword};
ghost use Rattle.py_descent.specs.Descent.{descent};
ghost use Rattle.py_descent.specs.Goals.{assert_rest, assignment, class_rest, compound, definition, from_rest, imports, line, raise_rest, return_rest, simple, simple_kind, statement, statements};
ghost use Rattle.py_descent.specs.Programs.{call, eat, give, room};
ghost use Rattle.py_grammar.specs.Cursor.{line_of};
ghost use Rattle.py_tree.specs.Tree as tree;
ghost use Rattle.py_tree.specs.View.{stmt_kind_view, stmt_view, stmts_view};
ghost use Rattle.py_parse.specs.Gives.{Gives, run};

use crate::fault::ParseFault;
use crate::marks::Mark;
use crate::parser::Parser;
use py_tokens::{Keyword, Op};
use py_tree::{Stmt, StmtKind};

impl<'t> Parser<'t> {
    /// The statements of a module.
    #[tactic(auto, using(py_descent::proofs::Each::unfold_statements, crate::proofs::Pushes::bind_gives))]
    pub(crate) fn module_statements(&mut self, body: &mut Vec<Stmt>) -> Result<(), ParseFault>
        ensures gives { Gives (λ _. stmts_view body.new.items) result self.new (descent (statements true (stmts_view body.old.items)) self.old) }
        ensures shrinks { OnOk result (room self.new ≤ room self.old) }
    {
        while !self.at_block_end() {
            self.module_statement(body)?;
        }
        Ok(())
    }

    // A statement at the top, where functions and classes stand too.
    #[tactic(auto, using(py_descent::proofs::Each::unfold_statement, crate::proofs::Pushes::bind_gives))]
    fn module_statement(&mut self, body: &mut Vec<Stmt>) -> Result<(), ParseFault>
        ensures gives { Gives (λ _. stmts_view body.new.items) result self.new (descent (statement true (stmts_view body.old.items)) self.old) }
        ensures shrinks { OnOk result (room self.new < room self.old) }
    {
        if self.at_compound() {
            return self.compound_statement(body);
        }
        if self.at_keyword(Keyword::KwDef) {
            return self.function_statement(body);
        }
        if self.at_keyword(Keyword::KwClass) {
            return self.class_statement(body);
        }
        self.simple_line(body)
    }

    /// Statements up to the end of their block.
    #[cycle(statements)]
    #[tactic(auto, using(py_descent::proofs::Each::unfold_statements, crate::proofs::Pushes::bind_gives))]
    pub(crate) fn statements(&mut self, body: &mut Vec<Stmt>) -> Result<(), ParseFault>
        ensures gives { Gives (λ _. stmts_view body.new.items) result self.new (descent (statements false (stmts_view body.old.items)) self.old) }
        ensures shrinks { OnOk result (room self.new ≤ room self.old) }
    {
        while !self.at_block_end() {
            self.statement(body)?;
        }
        Ok(())
    }

    pub(crate) fn at_block_end(&self) -> bool
        ensures { result ≡ at_close self.now }
    {
        self.at_dedent() || self.at_end()
    }

    /// A statement of a block.
    #[cycle(statements)]
    #[tactic(auto, using(py_descent::proofs::Each::unfold_statement, crate::proofs::Pushes::bind_gives))]
    pub(crate) fn statement(&mut self, body: &mut Vec<Stmt>) -> Result<(), ParseFault>
        ensures gives { Gives (λ _. stmts_view body.new.items) result self.new (descent (statement false (stmts_view body.old.items)) self.old) }
        ensures shrinks { OnOk result (room self.new < room self.old) }
    {
        if self.at_compound() {
            self.compound_statement(body)
        } else {
            self.simple_line(body)
        }
    }

    #[cycle(statements)]
    #[tactic(auto, using(crate::proofs::Pushes::stmts_push, py_tree::proofs::StatementViews::view_stmt))]
    fn compound_statement(&mut self, body: &mut Vec<Stmt>) -> Result<(), ParseFault>
        ensures gives { Gives (λ _. stmts_view body.new.items) result self.new (run (call compound (λ kind. give (and_stmt (stmts_view body.old.items) (tree.statement kind (line_of self.old))))) self.old) }
        ensures shrinks { OnOk result (room self.new < room self.old) }
    {
        let line = self.line();
        let kind = self.compound()?;
        body.push(Stmt { kind, line })?;
        Ok(())
    }

    #[tactic(auto, using(crate::proofs::Pushes::stmts_push, py_tree::proofs::StatementViews::view_def, py_tree::proofs::StatementViews::view_stmt))]
    fn function_statement(&mut self, body: &mut Vec<Stmt>) -> Result<(), ParseFault>
        ensures gives { Gives (λ _. stmts_view body.new.items) result self.new (run (call definition (λ fun. give (and_stmt (stmts_view body.old.items) (tree.statement (tree.def fun) (line_of self.old))))) self.old) }
        ensures shrinks { OnOk result (room self.new < room self.old) }
    {
        let line = self.line();
        let fun = self.definition()?;
        let kind = StmtKind::Def(fun);
        body.push(Stmt { kind, line })?;
        Ok(())
    }

    #[tactic(auto, using(crate::proofs::Pushes::stmts_push, py_tree::proofs::StatementViews::view_class, py_tree::proofs::StatementViews::view_stmt))]
    fn class_statement(&mut self, body: &mut Vec<Stmt>) -> Result<(), ParseFault>
        ensures gives { Gives (λ _. stmts_view body.new.items) result self.new (run (call class_rest (λ class. give (and_stmt (stmts_view body.old.items) (tree.statement (tree.class class) (line_of self.old))))) self.old) }
        ensures shrinks { OnOk result (room self.new < room self.old) }
    {
        let line = self.line();
        let class = self.class_def()?;
        let kind = StmtKind::Class(class);
        body.push(Stmt { kind, line })?;
        Ok(())
    }

    /// Simple statements on one line.
    #[tactic(auto, using(py_descent::proofs::Each::unfold_line, crate::proofs::Pushes::bind_gives, crate::proofs::Pushes::stmts_push))]
    pub(crate) fn simple_line(&mut self, body: &mut Vec<Stmt>) -> Result<(), ParseFault>
        ensures gives { Gives (λ _. stmts_view body.new.items) result self.new (descent (line (stmts_view body.old.items)) self.old) }
        ensures shrinks { OnOk result (room self.new < room self.old) }
    {
        loop {
            let stmt = self.simple()?;
            body.push(stmt)?;
            if !self.eat_op(Op::Semi) {
                return self.expect_newline();
            }
            if self.eat_newline() {
                return Ok(());
            }
        }
    }

    #[tactic(auto, using(py_descent::proofs::Each::unfold_simple, crate::proofs::Pushes::bind_gives, py_tree::proofs::StatementViews::view_stmt))]
    fn simple(&mut self) -> Result<Stmt, ParseFault>
        ensures gives { Gives stmt_view result self.new (descent simple self.old) }
        ensures shrinks { OnOk result (room self.new < room self.old) }
    {
        self.mark(Mark::Statement);
        let line = self.line();
        let kind = self.simple_kind()?;
        Ok(Stmt { kind, line })
    }

    #[tactic(auto, using(py_descent::proofs::Each::unfold_simple_kind, crate::proofs::Pushes::bind_gives, py_tree::proofs::StatementViews::view_pass, py_tree::proofs::StatementViews::view_break, py_tree::proofs::StatementViews::view_continue, py_tree::proofs::StatementViews::view_ellipsis))]
    fn simple_kind(&mut self) -> Result<StmtKind, ParseFault>
        ensures gives { Gives stmt_kind_view result self.new (descent simple_kind self.old) }
        ensures shrinks { OnOk result (room self.new < room self.old) }
    {
        if self.eat_keyword(Keyword::KwPass) {
            return Ok(StmtKind::Pass);
        }
        if self.eat_keyword(Keyword::KwBreak) {
            return Ok(StmtKind::Break);
        }
        if self.eat_keyword(Keyword::KwContinue) {
            return Ok(StmtKind::Continue);
        }
        if self.eat_op(Op::Ellipsis) {
            return Ok(StmtKind::Ellipsis);
        }
        self.phrase()
    }

    // A simple statement of more than a word.
    #[tactic(auto, using(crate::proofs::Pushes::bind_gives))]
    fn phrase(&mut self) -> Result<StmtKind, ParseFault>
        ensures gives { Gives stmt_kind_view result self.new
            (run (eat (keyword Keyword.KwReturn) (call return_rest give)
            (eat (keyword Keyword.KwRaise) (call raise_rest give)
            (eat (keyword Keyword.KwAssert) (call assert_rest give)
            (eat (keyword Keyword.KwImport) (call (imports []) (λ parts. give (tree.import parts)))
            (eat (keyword Keyword.KwFrom) (call from_rest give)
            (call assignment give)))))) self.old) }
        ensures shrinks { OnOk result (room self.new < room self.old) }
    {
        if self.eat_keyword(Keyword::KwReturn) {
            return self.return_value();
        }
        if self.eat_keyword(Keyword::KwRaise) {
            return self.raise();
        }
        if self.eat_keyword(Keyword::KwAssert) {
            return self.assert_test();
        }
        if self.eat_keyword(Keyword::KwImport) {
            return self.import();
        }
        if self.eat_keyword(Keyword::KwFrom) {
            return self.import_from();
        }
        self.assignment()
    }

    #[tactic(auto, using(py_descent::proofs::Each::unfold_return_rest, crate::proofs::Pushes::bind_gives, py_tree::proofs::StatementViews::view_return))]
    fn return_value(&mut self) -> Result<StmtKind, ParseFault>
        ensures gives { Gives stmt_kind_view result self.new (descent return_rest self.old) }
        ensures shrinks { OnOk result (room self.new ≤ room self.old) }
    {
        self.mark_element();
        if !self.starts_test() {
            return Ok(StmtKind::Return(None));
        }
        let value = self.tests()?;
        Ok(StmtKind::Return(Some(value)))
    }

    #[tactic(auto, using(py_descent::proofs::Each::unfold_raise_rest, crate::proofs::Pushes::bind_gives, py_tree::proofs::StatementViews::view_raise))]
    fn raise(&mut self) -> Result<StmtKind, ParseFault>
        ensures gives { Gives stmt_kind_view result self.new (descent raise_rest self.old) }
        ensures shrinks { OnOk result (room self.new ≤ room self.old) }
    {
        self.mark(Mark::Test);
        if !self.starts_test() {
            return Ok(StmtKind::Raise(None, None));
        }
        let raised = self.test()?;
        if self.eat_keyword(Keyword::KwFrom) {
            let cause = self.test()?;
            return Ok(StmtKind::Raise(Some(raised), Some(cause)));
        }
        Ok(StmtKind::Raise(Some(raised), None))
    }

    #[tactic(auto, using(py_descent::proofs::Each::unfold_assert_rest, crate::proofs::Pushes::bind_gives, py_tree::proofs::StatementViews::view_assert))]
    fn assert_test(&mut self) -> Result<StmtKind, ParseFault>
        ensures gives { Gives stmt_kind_view result self.new (descent assert_rest self.old) }
        ensures shrinks { OnOk result (room self.new < room self.old) }
    {
        let test = self.test()?;
        if self.eat_op(Op::Comma) {
            let message = self.test()?;
            return Ok(StmtKind::Assert(test, Some(message)));
        }
        Ok(StmtKind::Assert(test, None))
    }
}

//! From tokens to a module.
ghost use Rattle.std.specs.Prelude.{IfOk, IfErr};
ghost use Rattle.py_tree.specs.Tree.{Module as tree_module};
ghost use Rattle.py_tree.specs.View.{module_view, stmts_view};
ghost use Rattle.py_descent.specs.Programs.{give};
ghost use Rattle.py_parse.specs.Gives.{Gives, run, unit};
ghost use Rattle.py_parse.specs.Parses.{ComesTo, IsAnswer, IsCause, IsFinished, IsReading, nothing_more, whole_module};

use crate::fault::ParseFault;
use crate::nesting::first_too_deep;
use crate::parser::Parser;
use place_ids::{Names, Span};
use py_tokens::Tokens;
use py_tree::{Module, Stmt};
use std::alloc::Global;

impl<'t> Parser<'t> {
    // The statements up to END, which has to be the last token.
    fn module(&mut self) -> Result<Vec<Stmt>, ParseFault>
        ensures { Gives (λ body. stmts_view body.items) result self.new (run whole_module self.old) }
    {
        let mut body = Vec::new(self.alloc());
        self.module_statements(&mut body)?;
        self.expect_end()?;
        self.expect_nothing()?;
        Ok(body)
    }

    fn expect_nothing(&mut self) -> Result<(), ParseFault>
        ensures { Gives unit result self.new (run (nothing_more (give tt)) self.old) }
    {
        if self.kind().is_some() {
            Err(self.refuse())
        } else {
            Ok(())
        }
    }

    // The fault where the tokens are cut at one that is too deep. A refusal there or past it is for that.
    fn deepened(&self, read: Result<Vec<Stmt>, ParseFault>, span: Span) -> ParseFault {
        match read {
            Err(ParseFault::Memory) => ParseFault::Memory,
            Err(fault) if self.place < self.limit => fault,
            _ => ParseFault::TooDeep(span),
        }
    }
}

// A refusal where no token is too deep.
fn plain(fault: ParseFault) -> ParseFault
    ensures { ComesTo fault result }
{
    match fault {
        ParseFault::TooDeep(span) => ParseFault::Unexpected(span),
        _ => fault,
    }
}

fn tree(body: Vec<Stmt>, names: &Names) -> Result<Module, ParseFault>
    ensures { IsAnswer (record { body = stmts_view body.items; names = names.now }) result }
{
    match names.copy() {
        Ok(names) => Ok(Module { body, names }),
        Err(_) => Err(ParseFault::Memory),
    }
}

// The answer where no token is too deep.
fn finished(read: Result<Vec<Stmt>, ParseFault>, names: &Names) -> Result<Module, ParseFault>
    ensures { IsFinished (λ body. stmts_view body.items) read names.now result }
{
    match read {
        Ok(body) => tree(body, names),
        Err(fault) => Err(plain(fault)),
    }
}

/// The module that the tokens are ("Full Grammar specification"). A refusal stands at the first token with which no module's
/// tokens agree, or whose nesting reaches 65.
pub fn parse(alloc: Global, tokens: &Tokens) -> Result<Module, ParseFault>
    ensures read { IfOk result (λ m. IsReading tokens.now (module_view m)) }
    ensures whole { (m : tree_module) → IsReading tokens.now m → IsAnswer m result }
    ensures refused { IfErr result (λ fault. IsCause tokens.now fault) }
{
    let limit = first_too_deep(alloc, tokens)?;
    let mut parser = Parser::new(alloc, tokens, limit);
    let read = parser.module();
    match tokens.get(limit) {
        Some(token) => Err(parser.deepened(read, token.span)),
        None => finished(read, tokens.names()),
    }
}

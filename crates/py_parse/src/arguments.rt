//! Calls and their arguments ("Calls").
ghost use Rattle.std.specs.Prelude.{◌≡◌, ◌≤◌, ◌<◌, false, Some, None, OnOk};
ghost use Rattle.py_descent.specs.Bodies.{expect};
ghost use Rattle.py_descent.specs.Codes.{symbol};
ghost use Rattle.py_descent.specs.Descent.{descent};
ghost use Rattle.py_descent.specs.Goals.{name, test, call_rest, arguments, argument};
ghost use Rattle.py_descent.specs.Programs.{give, call, room};
ghost use Rattle.py_tree.specs.Tree.{no_args};
ghost use Rattle.py_tree.specs.View.{expr_view, arg_view, args_view};
ghost use Rattle.py_parse.specs.Gives.{Gives, run};

use crate::fault::ParseFault;
use crate::marks::Mark;
use crate::parser::Parser;
use place_ids::LineNo;
use py_tokens::Op;
use py_tree::{Arg, Expr};

impl<'t> Parser<'t> {
    /// A call, past its opening bracket.
    #[cycle(expressions)]
    #[tactic(auto, using(py_descent::proofs::Each::unfold_call_rest, crate::proofs::Pushes::bind_gives))]
    pub(crate) fn call(&mut self, function: Expr, line: LineNo) -> Result<Expr, ParseFault>
        ensures gives { Gives expr_view result self.new (descent (call_rest line (expr_view function)) self.old) }
        ensures shrinks { OnOk result (room self.new < room self.old) }
    {
        let args = self.arguments()?;
        self.expect_op(Op::RightParen)?;
        self.call_of(function, args, line)
    }

    #[cycle(expressions)]
    #[tactic(auto, using(py_descent::proofs::Each::unfold_arguments, crate::proofs::Pushes::bind_gives, crate::proofs::Pushes::args_push))]
    fn arguments(&mut self) -> Result<Vec<Arg>, ParseFault>
        ensures gives { Gives (λ args. args_view args.items) result self.new (descent (arguments false no_args) self.old) }
        ensures shrinks { OnOk result (room self.new ≤ room self.old) }
    {
        let mut args = Vec::new(self.alloc());
        let mut named = false;
        while !self.at_op(Op::RightParen) {
            let arg = self.argument(named)?;
            named = arg.name.is_some();
            args.push(arg)?;
            if !self.eat_op(Op::Comma) {
                break;
            }
        }
        Ok(args)
    }

    // An argument. After one with a keyword each has one.
    #[cycle(expressions)]
    #[tactic(auto, using(py_descent::proofs::Each::unfold_argument, crate::proofs::Pushes::bind_gives))]
    fn argument(&mut self, named: bool) -> Result<Arg, ParseFault>
        ensures gives { Gives arg_view result self.new (descent (argument named) self.old) }
        ensures shrinks { OnOk result (room self.new < room self.old) }
    {
        self.mark(Mark::Element);
        if named || self.at_keyword_argument() {
            self.keyword_argument()
        } else {
            self.positional_argument()
        }
    }

    #[cycle(expressions)]
    fn keyword_argument(&mut self) -> Result<Arg, ParseFault>
        ensures gives { Gives arg_view result self.new (run (call name (λ n. expect (symbol Op.Assign) (call test (λ e. give (Some n, e))))) self.old) }
        ensures shrinks { OnOk result (room self.new < room self.old) }
    {
        let name = self.name()?;
        self.expect_op(Op::Assign)?;
        let value = self.test()?;
        Ok(Arg {
            name: Some(name),
            value,
        })
    }

    #[cycle(expressions)]
    fn positional_argument(&mut self) -> Result<Arg, ParseFault>
        ensures gives { Gives arg_view result self.new (run (call test (λ e. give (None, e))) self.old) }
        ensures shrinks { OnOk result (room self.new < room self.old) }
    {
        let value = self.test()?;
        Ok(Arg { name: None, value })
    }
}

//! Functions and their parameters ("Function definitions").
ghost use Rattle.std.specs.Prelude.{◌≡◌, ◌≤◌, ◌<◌, false, [], map, Some, None, OnOk};
ghost use Rattle.py_descent.specs.Codes.{symbol};
ghost use Rattle.py_descent.specs.Descent.{descent};
ghost use Rattle.py_descent.specs.Goals.{definition, function, hint, literal, params, result as annotated_result};
ghost use Rattle.py_descent.specs.Programs.{call, choose, eat, give, refuse, room};
ghost use Rattle.py_tree.specs.View.{fun_view, param_view};
ghost use Rattle.py_parse.specs.Gives.{Gives, run, same, unit};

use crate::fault::ParseFault;
use crate::marks::Header;
use crate::parser::Parser;
use place_ids::{LineNo, NameId};
use py_tokens::{Keyword, Op};
use py_tree::{FunDef, Literal, Param};

impl<'t> Parser<'t> {
    #[tactic(auto, using(py_descent::proofs::Each::unfold_definition, crate::proofs::Pushes::bind_gives))]
    pub(crate) fn definition(&mut self) -> Result<FunDef, ParseFault>
        ensures gives { Gives fun_view result self.new (descent definition self.old) }
        ensures shrinks { OnOk result (room self.new < room self.old) }
    {
        let line = self.line();
        self.expect_keyword(Keyword::KwDef)?;
        let name = self.name()?;
        self.function(line, name)
    }

    /// A function or a method, past its name.
    #[tactic(auto, using(py_descent::proofs::Each::unfold_function, crate::proofs::Pushes::bind_gives, py_tree::proofs::StatementViews::view_fun))]
    pub(crate) fn function(&mut self, line: LineNo, name: NameId) -> Result<FunDef, ParseFault>
        ensures gives { Gives fun_view result self.new (descent (function line name) self.old) }
        ensures shrinks { OnOk result (room self.new < room self.old) }
    {
        self.expect_op(Op::LeftParen)?;
        self.enter(Some(Header::Params));
        let id = self.fun_id()?;
        let params = self.params()?;
        self.expect_op(Op::RightParen)?;
        self.enter(None);
        self.returned()?;
        let body = self.body()?;
        Ok(FunDef {
            id,
            name,
            params,
            body,
            line,
        })
    }

    // The annotation of what a function returns.
    #[tactic(auto, using(py_descent::proofs::Each::unfold_result, crate::proofs::Pushes::bind_gives))]
    fn returned(&mut self) -> Result<(), ParseFault>
        ensures gives { Gives unit result self.new (descent annotated_result self.old) }
        ensures shrinks { OnOk result (room self.new ≤ room self.old) }
    {
        if self.eat_op(Op::Arrow) {
            self.annotation()
        } else {
            Ok(())
        }
    }

    // Parameters. After one with a default each has one.
    #[tactic(auto, using(py_descent::proofs::Each::unfold_params, py_descent::proofs::Each::unfold_param, crate::proofs::Pushes::bind_gives, crate::proofs::Pushes::mapped))]
    fn params(&mut self) -> Result<Vec<Param>, ParseFault>
        ensures gives { Gives (λ params. map param_view params.items) result self.new (descent (params false []) self.old) }
        ensures shrinks { OnOk result (room self.new ≤ room self.old) }
    {
        let mut params = Vec::new(self.alloc());
        let mut late = false;
        while !self.at_op(Op::RightParen) {
            let name = self.name()?;
            self.hint()?;
            let default = self.param_default(late)?;
            late = default.is_some();
            params.push(Param { name, default })?;
            if !self.eat_op(Op::Comma) {
                return Ok(params);
            }
        }
        Ok(params)
    }

    // The annotation of a parameter.
    #[tactic(auto, using(py_descent::proofs::Each::unfold_hint, crate::proofs::Pushes::bind_gives))]
    fn hint(&mut self) -> Result<(), ParseFault>
        ensures gives { Gives unit result self.new (descent hint self.old) }
        ensures shrinks { OnOk result (room self.new ≤ room self.old) }
    {
        if self.eat_op(Op::Colon) {
            self.annotation()
        } else {
            Ok(())
        }
    }

    // The default of a parameter, which it may have to have.
    fn param_default(&mut self, late: bool) -> Result<Option<Literal>, ParseFault>
        ensures gives { Gives same result self.new
            (run (eat (symbol Op.Assign) (call literal (λ default. give (Some default))) (choose late refuse (give None))) self.old) }
        ensures shrinks { OnOk result (room self.new ≤ room self.old) }
    {
        if self.eat_op(Op::Assign) {
            let default = self.default()?;
            return Ok(Some(default));
        }
        if late {
            return Err(self.refuse());
        }
        Ok(None)
    }
}

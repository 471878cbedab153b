//! Annotations, which are read and not kept ("Annotated assignment statements").
ghost use Rattle.std.specs.Prelude.{◌≡◌, ◌≤◌, ◌<◌, OnOk};
ghost use Rattle.py_descent.specs.Descent.{descent};
ghost use Rattle.py_descent.specs.Goals.{annotation, parts, part, items, item};
ghost use Rattle.py_descent.specs.Programs.{room};
ghost use Rattle.py_parse.specs.Gives.{Gives, unit};

use crate::fault::ParseFault;
use crate::parser::Parser;
use py_tokens::{Keyword, Op};

impl<'t> Parser<'t> {
    #[cycle(annotations)]
    #[tactic(auto, using(py_descent::proofs::Each::unfold_annotation, crate::proofs::Pushes::bind_gives))]
    pub(crate) fn annotation(&mut self) -> Result<(), ParseFault>
        ensures gives { Gives unit result self.new (descent annotation self.old) }
        ensures shrinks { OnOk result (room self.new < room self.old) }
    {
        self.annotation_part()?;
        self.annotation_parts()
    }

    // What stands behind the first part of a union.
    #[cycle(annotations)]
    #[tactic(auto, using(py_descent::proofs::Each::unfold_parts, crate::proofs::Pushes::bind_gives))]
    fn annotation_parts(&mut self) -> Result<(), ParseFault>
        ensures gives { Gives unit result self.new (descent parts self.old) }
        ensures shrinks { OnOk result (room self.new ≤ room self.old) }
    {
        while self.eat_op(Op::Bar) {
            self.annotation_part()?;
        }
        Ok(())
    }

    #[cycle(annotations)]
    #[tactic(auto, using(py_descent::proofs::Each::unfold_part, crate::proofs::Pushes::bind_gives))]
    fn annotation_part(&mut self) -> Result<(), ParseFault>
        ensures gives { Gives unit result self.new (descent part self.old) }
        ensures shrinks { OnOk result (room self.new < room self.old) }
    {
        if self.eat_keyword(Keyword::KwNone) {
            return Ok(());
        }
        if let Some(first) = self.eat_string() {
            self.strings(first);
            return Ok(());
        }
        self.path()?;
        if self.eat_op(Op::LeftSquare) {
            self.annotation_items()?;
            return self.expect_op(Op::RightSquare);
        }
        Ok(())
    }

    #[cycle(annotations)]
    #[tactic(auto, using(py_descent::proofs::Each::unfold_items, crate::proofs::Pushes::bind_gives))]
    fn annotation_items(&mut self) -> Result<(), ParseFault>
        ensures gives { Gives unit result self.new (descent items self.old) }
        ensures shrinks { OnOk result (room self.new < room self.old) }
    {
        loop {
            self.annotation_item()?;
            if !self.eat_op(Op::Comma) {
                return Ok(());
            }
            if self.at_op(Op::RightSquare) {
                return Ok(());
            }
        }
    }

    #[cycle(annotations)]
    #[tactic(auto, using(py_descent::proofs::Each::unfold_item, crate::proofs::Pushes::bind_gives))]
    fn annotation_item(&mut self) -> Result<(), ParseFault>
        ensures gives { Gives unit result self.new (descent item self.old) }
        ensures shrinks { OnOk result (room self.new < room self.old) }
    {
        if self.eat_op(Op::Ellipsis) {
            return Ok(());
        }
        if !self.eat_op(Op::LeftSquare) {
            return self.annotation();
        }
        if self.eat_op(Op::RightSquare) {
            return Ok(());
        }
        self.annotation_items()?;
        self.expect_op(Op::RightSquare)
    }
}

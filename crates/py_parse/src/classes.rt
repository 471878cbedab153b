//! Classes and their members ("Class definitions").
ghost use Rattle.std.specs.Prelude.{◌≡◌, ◌≤◌, ◌<◌, Some, None, OnOk};
ghost use Rattle.py_descent.specs.Bodies.{and_member, expect};
ghost use Rattle.py_descent.specs.Codes.{symbol, newline, indent, dedent};
ghost use Rattle.py_descent.specs.Descent.{descent};
ghost use Rattle.py_descent.specs.Goals.{annotation, base, class_body, class_member, class_rest, entries, entry, name, plain_name, tests};
ghost use Rattle.py_descent.specs.Programs.{call, eat, give, room};
ghost use Rattle.py_tree.specs.Tree as tree;
ghost use Rattle.py_tree.specs.Tree.{member, no_members};
ghost use Rattle.py_tree.specs.View.{class_view, member_view, members_view};
ghost use Rattle.py_parse.specs.Gives.{Gives, run, same};

use crate::fault::ParseFault;
use crate::marks::{Header, Mark};
use crate::parser::Parser;
use place_ids::{LineNo, NameId};
use py_tokens::{Keyword, Op};
use py_tree::{ClassDef, Member};

impl<'t> Parser<'t> {
    #[tactic(auto, using(py_descent::proofs::Each::unfold_class_rest, crate::proofs::Pushes::bind_gives, py_tree::proofs::StatementViews::view_class_def))]
    pub(crate) fn class_def(&mut self) -> Result<ClassDef, ParseFault>
        ensures gives { Gives class_view result self.new (descent class_rest self.old) }
        ensures shrinks { OnOk result (room self.new < room self.old) }
    {
        let line = self.line();
        self.expect_keyword(Keyword::KwClass)?;
        let name = self.name()?;
        let id = self.class_id()?;
        let base = self.base()?;
        self.expect_op(Op::Colon)?;
        self.set_in_class(true);
        let members = self.members()?;
        self.set_in_class(false);
        Ok(ClassDef {
            id,
            name,
            base,
            members,
            line,
        })
    }

    #[tactic(auto, using(py_descent::proofs::Each::unfold_base, crate::proofs::Pushes::bind_gives))]
    fn base(&mut self) -> Result<Option<NameId>, ParseFault>
        ensures gives { Gives same result self.new (descent base self.old) }
        ensures shrinks { OnOk result (room self.new ≤ room self.old) }
    {
        if !self.eat_op(Op::LeftParen) {
            return Ok(None);
        }
        self.enter(Some(Header::Bases));
        let base = self.base_name()?;
        self.enter(None);
        Ok(base)
    }

    // The base in round brackets, past the first of these.
    #[tactic(auto, using(crate::proofs::Pushes::bind_gives))]
    fn base_name(&mut self) -> Result<Option<NameId>, ParseFault>
        ensures gives { Gives same result self.new (run (eat (symbol Op.RightParen) (give None) (call name (λ base. expect (symbol Op.RightParen) (give (Some base))))) self.old) }
        ensures shrinks { OnOk result (room self.new < room self.old) }
    {
        if self.eat_op(Op::RightParen) {
            return Ok(None);
        }
        let base = self.name()?;
        self.expect_op(Op::RightParen)?;
        Ok(Some(base))
    }

    #[tactic(auto, using(py_descent::proofs::Each::unfold_class_body, crate::proofs::Pushes::bind_gives, crate::proofs::Pushes::members_push))]
    fn members(&mut self) -> Result<Vec<Member>, ParseFault>
        ensures gives { Gives (λ members. members_view members.items) result self.new (descent class_body self.old) }
        ensures shrinks { OnOk result (room self.new < room self.old) }
    {
        let mut members = Vec::new(self.alloc());
        if self.eat_newline() {
            self.indented_members(&mut members)?;
        } else {
            let member = self.member()?;
            self.expect_newline()?;
            members.push(member)?;
        }
        Ok(members)
    }

    // The members of a class on lines of their own.
    #[tactic(auto, using(crate::proofs::Pushes::bind_gives, crate::proofs::Pushes::members_push))]
    fn indented_members(&mut self, members: &mut Vec<Member>) -> Result<(), ParseFault>
        ensures gives { Gives (λ _. members_view members.new.items) result self.new
            (run (expect indent (call entry (λ first. call (entries (and_member (members_view members.old.items) first)) (λ all. expect dedent (give all))))) self.old) }
        ensures shrinks { OnOk result (room self.new < room self.old) }
    {
        self.expect_indent()?;
        let first = self.entry()?;
        members.push(first)?;
        self.entries(members)?;
        self.expect_dedent()
    }

    #[tactic(auto, using(py_descent::proofs::Each::unfold_entries, crate::proofs::Pushes::bind_gives, crate::proofs::Pushes::members_push))]
    fn entries(&mut self, members: &mut Vec<Member>) -> Result<(), ParseFault>
        ensures gives { Gives (λ _. members_view members.new.items) result self.new (descent (entries (members_view members.old.items)) self.old) }
        ensures shrinks { OnOk result (room self.new ≤ room self.old) }
    {
        while !self.at_block_end() {
            let member = self.entry()?;
            members.push(member)?;
        }
        Ok(())
    }

    // A method, or another member and the end of its line.
    #[tactic(auto, using(py_descent::proofs::Each::unfold_entry, crate::proofs::Pushes::bind_gives, py_tree::proofs::StatementViews::view_method))]
    fn entry(&mut self) -> Result<Member, ParseFault>
        ensures gives { Gives member_view result self.new (descent entry self.old) }
        ensures shrinks { OnOk result (room self.new < room self.old) }
    {
        let line = self.line();
        if self.eat_keyword(Keyword::KwDef) {
            let name = self.attribute_name()?;
            let method = self.function(line, name)?;
            Ok(Member::Method(method))
        } else {
            self.member_line()
        }
    }

    #[tactic(auto, using(crate::proofs::Pushes::bind_gives))]
    fn member_line(&mut self) -> Result<Member, ParseFault>
        ensures gives { Gives member_view result self.new (run (call class_member (λ found. expect newline (give found))) self.old) }
        ensures shrinks { OnOk result (room self.new < room self.old) }
    {
        let member = self.member()?;
        self.expect_newline()?;
        Ok(member)
    }

    #[tactic(auto, using(py_descent::proofs::Each::unfold_class_member, crate::proofs::Pushes::bind_gives, py_tree::proofs::StatementViews::view_pass_member, py_tree::proofs::StatementViews::view_ellipsis_member, py_tree::proofs::StatementViews::view_text))]
    fn member(&mut self) -> Result<Member, ParseFault>
        ensures gives { Gives member_view result self.new (descent class_member self.old) }
        ensures shrinks { OnOk result (room self.new < room self.old) }
    {
        self.mark(Mark::Member);
        let line = self.line();
        if self.eat_keyword(Keyword::KwPass) {
            return Ok(Member::Pass);
        }
        if self.eat_op(Op::Ellipsis) {
            return Ok(Member::Ellipsis);
        }
        if let Some(first) = self.eat_string() {
            self.strings(first);
            return Ok(Member::Text);
        }
        self.named_member(line)
    }

    #[tactic(auto, using(crate::proofs::Pushes::bind_gives))]
    fn named_member(&mut self, line: LineNo) -> Result<Member, ParseFault>
        ensures gives { Gives member_view result self.new
            (run (call plain_name (λ name. eat (symbol Op.Assign) (call tests (λ value. give (tree.value name value line)))
            (expect (symbol Op.Colon) (call annotation (λ _. eat (symbol Op.Assign) (call tests (λ value. give (tree.declared name (Some value) line))) (give (tree.declared name None line))))))) self.old) }
        ensures shrinks { OnOk result (room self.new < room self.old) }
    {
        let name = self.attribute_name()?;
        if self.eat_op(Op::Assign) {
            let value = self.tests()?;
            return Ok(Member::Value(name, value, line));
        }
        self.expect_op(Op::Colon)?;
        self.annotation()?;
        if self.eat_op(Op::Assign) {
            let value = self.tests()?;
            return Ok(Member::Annotated(name, Some(value), line));
        }
        Ok(Member::Annotated(name, None, line))
    }
}

//! Imports ("The import statement").
ghost use Rattle.std.specs.Prelude.{◌≡◌, ◌≤◌, ◌<◌, ◌&&◌, true, false, [], map, OnOk};
ghost use Rattle.py_descent.specs.Bodies.{expect, is_lone};
ghost use Rattle.py_descent.specs.Codes.{at, symbol, keyword};
ghost use Rattle.py_descent.specs.Descent.{descent};
ghost use Rattle.py_descent.specs.Goals.{name, dotted, dots, import_part, imports, froms, from_rest};
ghost use Rattle.py_descent.specs.Programs.{give, eat, call, room};
ghost use Rattle.py_grammar.specs.Cursor.{past};
ghost use Rattle.py_tree.specs.Tree as tree;
ghost use Rattle.py_tree.specs.View.{import_view, from_view, stmt_kind_view};
ghost use Rattle.py_parse.specs.Gives.{Gives, GivesPart, number, run};

use crate::fault::ParseFault;
use crate::marks::Mark;
use crate::parser::Parser;
use place_ids::NameId;
use py_tokens::{Keyword, Op};
use py_tree::{FromPart, ImportPart, StmtKind};

// Whether a path is one name.
fn is_lone(path: &[NameId]) -> bool
    ensures { result ≡ is_lone path.now }
{
    path.len() == 1
}

impl<'t> Parser<'t> {
    // `import` and modules, past the first word.
    pub(crate) fn import(&mut self) -> Result<StmtKind, ParseFault>
        ensures gives { Gives stmt_kind_view result self.new (run (call (imports []) (λ parts. give (tree.import parts))) self.old) }
        ensures shrinks { OnOk result (room self.new < room self.old) }
    {
        let parts = self.import_parts()?;
        Ok(StmtKind::Import(parts))
    }

    #[tactic(auto, using(py_descent::proofs::Each::unfold_imports, crate::proofs::Pushes::bind_gives, crate::proofs::Pushes::mapped))]
    fn import_parts(&mut self) -> Result<Vec<ImportPart>, ParseFault>
        ensures gives { Gives (λ parts. map import_view parts.items) result self.new (descent (imports []) self.old) }
        ensures shrinks { OnOk result (room self.new < room self.old) }
    {
        let mut parts = Vec::new(self.alloc());
        loop {
            let part = self.import_part()?;
            parts.push(part)?;
            if !self.eat_op(Op::Comma) {
                return Ok(parts);
            }
        }
    }

    // A module, and the name that it gets. One with dots in its own has to get another.
    #[tactic(auto, using(py_descent::proofs::Each::unfold_import_part))]
    fn import_part(&mut self) -> Result<ImportPart, ParseFault>
        ensures gives { Gives import_view result self.new (descent import_part self.old) }
        ensures shrinks { OnOk result (room self.new < room self.old) }
    {
        let path = self.path()?;
        if self.eat_keyword(Keyword::KwAs) {
            let alias = self.name()?;
            return Ok(ImportPart {
                path,
                alias: Some(alias),
            });
        }
        if !is_lone(path.as_slice()) {
            self.mark(Mark::Alias);
            return Err(self.refuse());
        }
        Ok(ImportPart { path, alias: None })
    }

    /// The name after `as`, if that is there.
    pub(crate) fn alias(&mut self) -> Result<Option<NameId>, ParseFault>
        ensures gives { GivesPart number result (at (keyword Keyword.KwAs) self.old) self.old self.new (descent name (past self.old)) }
        ensures shrinks { OnOk result (room self.new ≤ room self.old) }
    {
        if self.eat_keyword(Keyword::KwAs) {
            let alias = self.name()?;
            Ok(Some(alias))
        } else {
            Ok(None)
        }
    }

    /// Names joined by dots.
    #[tactic(auto, using(py_descent::proofs::Each::unfold_dotted, crate::proofs::Pushes::bind_gives))]
    pub(crate) fn path(&mut self) -> Result<Vec<NameId>, ParseFault>
        ensures gives { Gives (λ path. path.items) result self.new (descent dotted self.old) }
        ensures shrinks { OnOk result (room self.new < room self.old) }
    {
        let mut path = Vec::new(self.alloc());
        let first = self.name()?;
        path.push(first)?;
        self.dots(&mut path)?;
        Ok(path)
    }

    // The names behind the first.
    #[tactic(auto, using(py_descent::proofs::Each::unfold_dots, crate::proofs::Pushes::bind_gives))]
    fn dots(&mut self, path: &mut Vec<NameId>) -> Result<(), ParseFault>
        ensures gives { Gives (λ _. path.new.items) result self.new (descent (dots path.old.items) self.old) }
        ensures shrinks { OnOk result (room self.new ≤ room self.old) }
    {
        while self.eat_op(Op::Dot) {
            let name = self.attribute_name()?;
            path.push(name)?;
        }
        Ok(())
    }

    // `from` and what is taken from a module, past the first word.
    #[tactic(auto, using(py_descent::proofs::Each::unfold_from_rest, crate::proofs::Pushes::bind_gives))]
    pub(crate) fn import_from(&mut self) -> Result<StmtKind, ParseFault>
        ensures gives { Gives stmt_kind_view result self.new (descent from_rest self.old) }
        ensures shrinks { OnOk result (room self.new < room self.old) }
    {
        let path = self.path()?;
        self.expect_keyword(Keyword::KwImport)?;
        self.from_parts(path)
    }

    // What is taken from the module of this path.
    fn from_parts(&mut self, path: Vec<NameId>) -> Result<StmtKind, ParseFault>
        ensures gives { Gives stmt_kind_view result self.new (run (eat (symbol Op.LeftParen) (call (froms true []) (λ parts. expect (symbol Op.RightParen) (give (tree.from path.items parts)))) (call (froms false []) (λ parts. give (tree.from path.items parts)))) self.old) }
        ensures shrinks { OnOk result (room self.new < room self.old) }
    {
        if self.eat_op(Op::LeftParen) {
            let parts = self.from_names(true)?;
            self.expect_op(Op::RightParen)?;
            return Ok(StmtKind::From(path, parts));
        }
        let parts = self.from_names(false)?;
        Ok(StmtKind::From(path, parts))
    }

    // Names, which may have a comma after the last where round brackets are around them.
    #[tactic(auto, using(py_descent::proofs::Each::unfold_froms, py_descent::proofs::Each::unfold_from_part, crate::proofs::Pushes::bind_gives, crate::proofs::Pushes::mapped))]
    fn from_names(&mut self, grouped: bool) -> Result<Vec<FromPart>, ParseFault>
        ensures gives { Gives (λ parts. map from_view parts.items) result self.new (descent (froms grouped []) self.old) }
        ensures shrinks { OnOk result (room self.new < room self.old) }
    {
        let mut parts = Vec::new(self.alloc());
        loop {
            let name = self.name()?;
            let alias = self.alias()?;
            parts.push(FromPart { name, alias })?;
            if !self.eat_op(Op::Comma) {
                return Ok(parts);
            }
            if self.ends_group(grouped) {
                return Ok(parts);
            }
        }
    }

    // Whether the round brackets around names end.
    fn ends_group(&self, grouped: bool) -> bool
        ensures { result ≡ (grouped && at (symbol Op.RightParen) self.now) }
    {
        grouped && self.at_op(Op::RightParen)
    }
}

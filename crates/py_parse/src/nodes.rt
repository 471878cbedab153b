//! Nodes of the tree, which are numbered after their parts.
ghost use Rattle.std.specs.Prelude.{◌≡◌, OnOk};
ghost use Rattle.py_descent.specs.Programs.{gives, room};
ghost use Rattle.py_grammar.specs.Cursor.{with_site};
ghost use Rattle.py_tree.specs.Tree as tree;
ghost use Rattle.py_tree.specs.Tree.{node};
ghost use Rattle.py_tree.specs.View.{expr_view, exprs_view, args_view, pairs_view, expr_kind_view, bound_view};
ghost use Rattle.py_parse.specs.Gives.{Gives, IsBoxed, part_view};

use crate::fault::ParseFault;
use crate::parser::Parser;
use place_ids::{BinOp, CompareOp, LineNo, NameId, UnaryOp};
use py_tree::{Arg, Expr, ExprKind, Pair};

impl<'t> Parser<'t> {
    pub(crate) fn expr(&mut self, kind: ExprKind, line: LineNo) -> Result<Expr, ParseFault>
        ensures gives { Gives expr_view result self.new (gives (node (expr_kind_view kind) line self.old.sites) (with_site self.old)) }
        ensures keeps { OnOk result (room self.new ≡ room self.old) }
    {
        let site = self.site()?;
        Ok(Expr { kind, line, site })
    }

    pub(crate) fn unary(
        &mut self,
        op: UnaryOp,
        operand: Expr,
        line: LineNo,
    ) -> Result<Expr, ParseFault>
        ensures gives { Gives expr_view result self.new (gives (node (tree.unary op (expr_view operand)) line self.old.sites) (with_site self.old)) }
        ensures keeps { OnOk result (room self.new ≡ room self.old) }
    {
        let operand = Box::new(self.alloc(), operand)?;
        self.expr(ExprKind::Unary(op, operand), line)
    }

    pub(crate) fn binary(
        &mut self,
        op: BinOp,
        left: Expr,
        right: Expr,
        line: LineNo,
    ) -> Result<Expr, ParseFault>
        ensures gives { Gives expr_view result self.new (gives (node (tree.binary op (expr_view left) (expr_view right)) line self.old.sites) (with_site self.old)) }
        ensures keeps { OnOk result (room self.new ≡ room self.old) }
    {
        let left = Box::new(self.alloc(), left)?;
        let right = Box::new(self.alloc(), right)?;
        self.expr(ExprKind::Binary(op, left, right), line)
    }

    pub(crate) fn compare(
        &mut self,
        op: CompareOp,
        left: Expr,
        right: Expr,
        line: LineNo,
    ) -> Result<Expr, ParseFault>
        ensures gives { Gives expr_view result self.new (gives (node (tree.compare op (expr_view left) (expr_view right)) line self.old.sites) (with_site self.old)) }
        ensures keeps { OnOk result (room self.new ≡ room self.old) }
    {
        let left = Box::new(self.alloc(), left)?;
        let right = Box::new(self.alloc(), right)?;
        self.expr(ExprKind::Compare(op, left, right), line)
    }

    pub(crate) fn not(&mut self, operand: Expr, line: LineNo) -> Result<Expr, ParseFault>
        ensures gives { Gives expr_view result self.new (gives (node (tree.not (expr_view operand)) line self.old.sites) (with_site self.old)) }
        ensures keeps { OnOk result (room self.new ≡ room self.old) }
    {
        let operand = Box::new(self.alloc(), operand)?;
        self.expr(ExprKind::Not(operand), line)
    }

    pub(crate) fn and(&mut self, left: Expr, right: Expr, line: LineNo) -> Result<Expr, ParseFault>
        ensures gives { Gives expr_view result self.new (gives (node (tree.and (expr_view left) (expr_view right)) line self.old.sites) (with_site self.old)) }
        ensures keeps { OnOk result (room self.new ≡ room self.old) }
    {
        let left = Box::new(self.alloc(), left)?;
        let right = Box::new(self.alloc(), right)?;
        self.expr(ExprKind::And(left, right), line)
    }

    pub(crate) fn or(&mut self, left: Expr, right: Expr, line: LineNo) -> Result<Expr, ParseFault>
        ensures gives { Gives expr_view result self.new (gives (node (tree.or (expr_view left) (expr_view right)) line self.old.sites) (with_site self.old)) }
        ensures keeps { OnOk result (room self.new ≡ room self.old) }
    {
        let left = Box::new(self.alloc(), left)?;
        let right = Box::new(self.alloc(), right)?;
        self.expr(ExprKind::Or(left, right), line)
    }

    /// `then if test else other`
    pub(crate) fn choose(
        &mut self,
        then: Expr,
        test: Expr,
        other: Expr,
        line: LineNo,
    ) -> Result<Expr, ParseFault>
        ensures gives { Gives expr_view result self.new (gives (node (tree.choice (expr_view then) (expr_view test) (expr_view other)) line self.old.sites) (with_site self.old)) }
        ensures keeps { OnOk result (room self.new ≡ room self.old) }
    {
        let then = Box::new(self.alloc(), then)?;
        let test = Box::new(self.alloc(), test)?;
        let other = Box::new(self.alloc(), other)?;
        self.expr(ExprKind::Choice(then, test, other), line)
    }

    pub(crate) fn item(
        &mut self,
        object: Expr,
        index: Expr,
        line: LineNo,
    ) -> Result<Expr, ParseFault>
        ensures gives { Gives expr_view result self.new (gives (node (tree.item (expr_view object) (expr_view index)) line self.old.sites) (with_site self.old)) }
        ensures keeps { OnOk result (room self.new ≡ room self.old) }
    {
        let object = Box::new(self.alloc(), object)?;
        let index = Box::new(self.alloc(), index)?;
        self.expr(ExprKind::Item(object, index), line)
    }

    pub(crate) fn name_expr(&mut self, name: NameId, line: LineNo) -> Result<Expr, ParseFault>
        ensures gives { Gives expr_view result self.new (gives (node (tree.name name) line self.old.sites) (with_site self.old)) }
        ensures keeps { OnOk result (room self.new ≡ room self.old) }
    {
        self.expr(ExprKind::Name(name), line)
    }

    pub(crate) fn tuple(&mut self, items: Vec<Expr>, line: LineNo) -> Result<Expr, ParseFault>
        ensures gives { Gives expr_view result self.new (gives (node (tree.tuple (exprs_view items.items)) line self.old.sites) (with_site self.old)) }
        ensures keeps { OnOk result (room self.new ≡ room self.old) }
    {
        self.expr(ExprKind::Tuple(items), line)
    }

    pub(crate) fn list(&mut self, items: Vec<Expr>, line: LineNo) -> Result<Expr, ParseFault>
        ensures gives { Gives expr_view result self.new (gives (node (tree.list (exprs_view items.items)) line self.old.sites) (with_site self.old)) }
        ensures keeps { OnOk result (room self.new ≡ room self.old) }
    {
        self.expr(ExprKind::List(items), line)
    }

    pub(crate) fn dict(&mut self, pairs: Vec<Pair>, line: LineNo) -> Result<Expr, ParseFault>
        ensures gives { Gives expr_view result self.new (gives (node (tree.dict (pairs_view pairs.items)) line self.old.sites) (with_site self.old)) }
        ensures keeps { OnOk result (room self.new ≡ room self.old) }
    {
        self.expr(ExprKind::Dict(pairs), line)
    }

    /// A call of `function`.
    pub(crate) fn call_of(
        &mut self,
        function: Expr,
        args: Vec<Arg>,
        line: LineNo,
    ) -> Result<Expr, ParseFault>
        ensures gives { Gives expr_view result self.new (gives (node (tree.call (expr_view function) (args_view args.items)) line self.old.sites) (with_site self.old)) }
        ensures keeps { OnOk result (room self.new ≡ room self.old) }
    {
        let function = Box::new(self.alloc(), function)?;
        self.expr(ExprKind::Call(function, args), line)
    }

    // A part of a slice, if it is written.
    fn boxed(&self, part: Option<Expr>) -> Result<Option<Box<Expr>>, ParseFault>
        ensures { IsBoxed part result }
    {
        match part {
            Some(part) => {
                let part = Box::new(self.alloc(), part)?;
                Ok(Some(part))
            }
            None => Ok(None),
        }
    }

    pub(crate) fn sliced(
        &mut self,
        object: Expr,
        lower: Option<Expr>,
        upper: Option<Expr>,
        step: Option<Expr>,
        line: LineNo,
    ) -> Result<Expr, ParseFault>
        ensures gives { Gives expr_view result self.new (gives (node (tree.slice (expr_view object) (part_view lower) (part_view upper) (part_view step)) line self.old.sites) (with_site self.old)) }
        ensures keeps { OnOk result (room self.new ≡ room self.old) }
    {
        let object = Box::new(self.alloc(), object)?;
        let lower = self.boxed(lower)?;
        let upper = self.boxed(upper)?;
        let step = self.boxed(step)?;
        self.expr(slice_kind(object, lower, upper, step), line)
    }
}

#[tactic(auto, using(py_tree::proofs::Slices::view_slice))]
fn slice_kind(
    object: Box<Expr>,
    lower: Option<Box<Expr>>,
    upper: Option<Box<Expr>>,
    step: Option<Box<Expr>>,
) -> ExprKind
    ensures { expr_kind_view result ≡ tree.slice (expr_view object.value) (bound_view lower) (bound_view upper) (bound_view step) }
{
    ExprKind::Slice(object, lower, upper, step)
}

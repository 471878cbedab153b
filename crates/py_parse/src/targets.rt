//! Targets of assignments and of `for` ("Assignment statements").
ghost use Rattle.std.specs.Prelude.{◌≡◌, ◌≤◌, ◌<◌, ◌&&◌, true, not, OnOk};
ghost use Rattle.py_descent.specs.Bodies.{are_targets, is_single, is_target, some_targets};
ghost use Rattle.py_descent.specs.Codes.{symbol};
ghost use Rattle.py_descent.specs.Descent.{descent};
ghost use Rattle.py_descent.specs.Goals.{for_targets, more_targets, primary};
ghost use Rattle.py_descent.specs.Programs.{call, choose, eat, give, refuse, room, site};
ghost use Rattle.py_descent.specs.Takings.{begins_test};
ghost use Rattle.py_grammar.specs.Statements.{is_plural};
ghost use Rattle.py_tree.specs.Tree as tree;
ghost use Rattle.py_tree.specs.Tree.{expr, no_exprs, node};
ghost use Rattle.py_tree.specs.View.{expr_view, exprs_view};
ghost use Rattle.py_parse.specs.Gives.{Gives, run};
ghost use Rattle.py_parse.specs.Targets.{GivesTargets};

use crate::fault::ParseFault;
use crate::marks::Mark;
use crate::parser::Parser;
use place_ids::LineNo;
use py_tokens::Op;
use py_tree::{Expr, ExprKind};

/// Whether an expression is one or more targets.
#[cycle(targets)]
#[tactic(auto, unfolding(py_descent::specs::Bodies::is_target))]
pub(crate) fn is_target(expr: &Expr) -> bool
    ensures { result ≡ is_target (expr_view expr.now) }
{
    match &expr.kind {
        ExprKind::Name(_) | ExprKind::Attr(..) | ExprKind::Item(..) => true,
        ExprKind::Tuple(items) | ExprKind::List(items) => some_targets(items.as_slice()),
        _ => false,
    }
}

#[cycle(targets)]
#[tactic(auto, using(crate::proofs::TargetLists::some_in), unfolding(py_descent::specs::Bodies::some_targets))]
fn some_targets(items: &[Expr]) -> bool
    ensures { result ≡ some_targets (exprs_view items.now) }
{
    !items.is_empty() && are_targets(items)
}

#[cycle(targets)]
#[tactic(auto, using(crate::proofs::TargetLists::next_target), unfolding(py_descent::specs::Bodies::are_targets))]
fn are_targets(items: &[Expr]) -> bool
    ensures { result ≡ are_targets (exprs_view items.now) }
{
    for item in items {
        if !is_target(item) {
            return false;
        }
    }
    true
}

/// Whether an expression is one target that no other target is part of.
#[tactic(auto, unfolding(py_descent::specs::Bodies::is_target))]
pub(crate) fn is_single_target(expr: &Expr) -> bool
    ensures { result ≡ (is_target (expr_view expr.now) && not (is_plural (expr_view expr.now))) }
{
    match &expr.kind {
        ExprKind::Name(_) | ExprKind::Attr(..) | ExprKind::Item(..) => true,
        _ => false,
    }
}

/// Whether an expression is a name or an attribute.
pub(crate) fn is_named_target(expr: &Expr) -> bool
    ensures { result ≡ is_single (expr_view expr.now) }
{
    match &expr.kind {
        ExprKind::Name(_) | ExprKind::Attr(..) => true,
        _ => false,
    }
}

impl<'t> Parser<'t> {
    /// The targets of `for`.
    #[tactic(auto, using(py_descent::proofs::Each::unfold_for_targets, crate::proofs::Pushes::bind_gives))]
    pub(crate) fn targets(&mut self) -> Result<Expr, ParseFault>
        ensures gives { Gives expr_view result self.new (descent for_targets self.old) }
        ensures shrinks { OnOk result (room self.new < room self.old) }
    {
        self.mark(Mark::Element);
        let line = self.line();
        let first = self.primary()?;
        self.targets_after(first, line)
    }

    #[tactic(auto, using(crate::proofs::Aims::no_target_first))]
    fn targets_after(&mut self, first: Expr, line: LineNo) -> Result<Expr, ParseFault>
        ensures gives { Gives expr_view result self.new
            (run (eat (symbol Op.Comma)
            (call (more_targets (expr (expr_view first) no_exprs)) (λ items. site (λ number. choose (some_targets items) (give (node (tree.tuple items) line number)) refuse)))
            (choose (is_target (expr_view first)) (give (expr_view first)) refuse)) self.old) }
        ensures shrinks { OnOk result (room self.new ≤ room self.old) }
    {
        if !is_target(&first) {
            return Err(self.refuse());
        }
        if !self.eat_op(Op::Comma) {
            return Ok(first);
        }
        self.target_tuple(first, line)
    }

    // Targets with a comma after the first, past that.
    #[tactic(auto, using(crate::proofs::Aims::target_steps, crate::proofs::Pushes::exprs_push))]
    fn target_tuple(&mut self, first: Expr, line: LineNo) -> Result<Expr, ParseFault>
        requires { is_target (expr_view first) ≡ true }
        ensures gives { Gives expr_view result self.new
            (run (call (more_targets (expr (expr_view first) no_exprs)) (λ items. site (λ number. choose (some_targets items) (give (node (tree.tuple items) line number)) refuse))) self.old) }
        ensures shrinks { OnOk result (room self.new ≤ room self.old) }
    {
        let mut items = Vec::new(self.alloc());
        items.push(first)?;
        self.more_targets(&mut items)?;
        self.tuple(items, line)
    }

    // Whether a further target begins at the place, where one may.
    fn starts_target(&mut self) -> bool
        ensures starts { result ≡ begins_test self.old }
        ensures stays { self.new ≡ self.old }
    {
        self.mark(Mark::Element);
        self.starts_test()
    }

    // A target that is no list without brackets.
    fn target(&mut self) -> Result<Expr, ParseFault>
        ensures gives { Gives expr_view result self.new (run (call primary (λ found. choose (is_target found) (give found) refuse)) self.old) }
        ensures shrinks { OnOk result (room self.new < room self.old) }
    {
        let found = self.primary()?;
        if is_target(&found) {
            Ok(found)
        } else {
            Err(self.refuse())
        }
    }

    // Targets with a comma after each but the last, as long as there are some.
    #[tactic(auto, using(py_descent::proofs::Each::unfold_more_targets, crate::proofs::Pushes::exprs_push))]
    fn more_targets(&mut self, items: &mut Vec<Expr>) -> Result<(), ParseFault>
        requires { some_targets (exprs_view items.old.items) ≡ true }
        ensures gives { GivesTargets result (exprs_view items.new.items) self.new (descent (more_targets (exprs_view items.old.items)) self.old) }
        ensures shrinks { OnOk result (room self.new ≤ room self.old) }
    {
        while self.starts_target() {
            let item = self.target()?;
            items.push(item)?;
            if !self.eat_op(Op::Comma) {
                return Ok(());
            }
        }
        Ok(())
    }
}

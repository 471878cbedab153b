//! Trees that are made, each as its contract says.
ghost use Rattle.std.specs.Prelude.{◌≡◌, [], ◌∷◌, Some, None, option_map, IfOk};
ghost use Rattle.place_ids.specs.declared.operators.BinOp.TheVariants.{Add};
ghost use Rattle.py_tree.specs.Tree as tree;
ghost use Rattle.py_tree.specs.Tree.{node, line_of, no_exprs, expr, no_args, arg, statement, no_stmts, stmt, no_arms, arm, no_handlers, handler, fun_def, class_def, no_members, member};
ghost use Rattle.py_tree.specs.View.{expr_view, expr_kind_view, bound_view, stmt_view, stmts_view, fun_view, member_view, members_view};

use crate::*;
use place_ids::{BinOp, ClassId, FunId, LineNo, NameId, SiteId};
use std::alloc::{AllocError, Global};

pub fn name(id: NameId, line: LineNo, site: SiteId) -> Expr
    ensures { expr_view result ≡ node (tree.name id) line site }
{
    let kind = ExprKind::Name(id);
    Expr { kind, line, site }
}

/// `left + right`
pub fn sum(alloc: Global, left: Expr, right: Expr, site: SiteId) -> Result<Expr, AllocError>
    ensures { IfOk result (λ made. expr_view made ≡ node (tree.binary Add (expr_view left) (expr_view right)) (line_of (expr_view left)) site) }
{
    let line = left.line;
    let left = Box::new(alloc, left)?;
    let right = Box::new(alloc, right)?;
    let kind = ExprKind::Binary(BinOp::Add, left, right);
    Ok(Expr { kind, line, site })
}

/// `fun(first, word=second)`
pub fn call(
    alloc: Global,
    fun: Expr,
    first: Expr,
    word: NameId,
    second: Expr,
    site: SiteId,
) -> Result<Expr, AllocError>
    ensures { IfOk result (λ made. expr_view made ≡ node (tree.call (expr_view fun) (arg None (expr_view first) (arg (Some word) (expr_view second) no_args))) (line_of (expr_view fun)) site) }
{
    let line = fun.line;
    let mut args = Vec::new(alloc);
    args.push(Arg {
        name: None,
        value: first,
    })?;
    args.push(Arg {
        name: Some(word),
        value: second,
    })?;
    let kind = ExprKind::Call(Box::new(alloc, fun)?, args);
    Ok(Expr { kind, line, site })
}

/// `whole[first:last:step]`
pub fn slice(
    whole: Box<Expr>,
    first: Option<Box<Expr>>,
    last: Option<Box<Expr>>,
    step: Option<Box<Expr>>,
    site: SiteId,
) -> Expr
    ensures { expr_view result ≡ node (tree.slice (expr_view whole.value) (bound_view first) (bound_view last) (bound_view step)) (line_of (expr_view whole.value)) site }
{
    let line = whole.line;
    let kind = sliced(whole, first, last, step);
    Expr { kind, line, site }
}

#[tactic(auto, using(crate::proofs::Slices::view_slice))]
fn sliced(
    whole: Box<Expr>,
    first: Option<Box<Expr>>,
    last: Option<Box<Expr>>,
    step: Option<Box<Expr>>,
) -> ExprKind
    ensures { expr_kind_view result ≡ tree.slice (expr_view whole.value) (bound_view first) (bound_view last) (bound_view step) }
{
    ExprKind::Slice(whole, first, last, step)
}

/// `if test: body`, and `else: pass`
pub fn choose(
    alloc: Global,
    test: Expr,
    body: Vec<Stmt>,
    line: LineNo,
    last: LineNo,
) -> Result<Stmt, AllocError>
    ensures { IfOk result (λ made. stmt_view made ≡ statement (tree.if (arm (expr_view test) (stmts_view body.items) no_arms) (stmt (statement tree.pass last) no_stmts)) line) }
{
    let mut arms = Vec::new(alloc);
    arms.push(Arm { test, body })?;
    let mut otherwise = Vec::new(alloc);
    otherwise.push(Stmt {
        kind: StmtKind::Pass,
        line: last,
    })?;
    let kind = StmtKind::If(arms, otherwise);
    Ok(Stmt { kind, line })
}

/// `def name(param=literal): body`
pub fn def(
    alloc: Global,
    id: FunId,
    name: NameId,
    param: NameId,
    literal: Literal,
    body: Vec<Stmt>,
    line: LineNo,
) -> Result<Stmt, AllocError>
    ensures { IfOk result (λ made. stmt_view made ≡ statement (tree.def (fun_def id name (record { name = param; default = Some literal } ∷ []) (stmts_view body.items) line)) line) }
{
    let mut params = Vec::new(alloc);
    params.push(Param {
        name: param,
        default: Some(literal),
    })?;
    let fun = FunDef {
        id,
        name,
        params,
        body,
        line,
    };
    let kind = StmtKind::Def(fun);
    Ok(Stmt { kind, line })
}

/// `class name(base): members`
pub fn class(id: ClassId, name: NameId, base: NameId, members: Vec<Member>, line: LineNo) -> Stmt
    ensures { stmt_view result ≡ statement (tree.class (class_def id name (Some base) (members_view members.items) line)) line }
{
    let class = ClassDef {
        id,
        name,
        base: Some(base),
        members,
        line,
    };
    let kind = StmtKind::Class(class);
    Stmt { kind, line }
}

/// `first` and `second` in a class body.
pub fn members(alloc: Global, first: Member, second: Member) -> Result<Vec<Member>, AllocError>
    ensures { IfOk result (λ made. members_view made.items ≡ member (member_view first) (member (member_view second) no_members)) }
{
    let mut members = Vec::new(alloc);
    members.push(first)?;
    members.push(second)?;
    Ok(members)
}

/// `name = value` in a class body.
pub fn value(name: NameId, value: Expr, line: LineNo) -> Member
    ensures { member_view result ≡ tree.value name (expr_view value) line }
{
    Member::Value(name, value, line)
}

/// A method in a class body.
pub fn method(fun: FunDef) -> Member
    ensures { member_view result ≡ tree.method (fun_view fun) }
{
    Member::Method(fun)
}

/// `try: body`, `except class as name: handling`, and `else: otherwise`
pub fn attempt(
    alloc: Global,
    body: Vec<Stmt>,
    class: Option<Expr>,
    name: NameId,
    handling: Vec<Stmt>,
    otherwise: Vec<Stmt>,
    line: LineNo,
) -> Result<Stmt, AllocError>
    ensures { IfOk result (λ made. stmt_view made ≡ statement (tree.try (stmts_view body.items) (handler (option_map expr_view class) (Some name) (stmts_view handling.items) line no_handlers) (stmts_view otherwise.items)) line) }
{
    let mut handlers = Vec::new(alloc);
    handlers.push(Handler {
        class,
        name: Some(name),
        body: handling,
        line,
    })?;
    let kind = StmtKind::Try(body, handlers, otherwise);
    Ok(Stmt { kind, line })
}

/// `from path import name as alias`
pub fn from(
    alloc: Global,
    path: Vec<NameId>,
    name: NameId,
    alias: NameId,
    line: LineNo,
) -> Result<Stmt, AllocError>
    ensures { IfOk result (λ made. stmt_view made ≡ statement (tree.from path.items (record { name = name; alias = Some alias } ∷ [])) line) }
{
    let mut parts = Vec::new(alloc);
    parts.push(FromPart {
        name,
        alias: Some(alias),
    })?;
    let kind = StmtKind::From(path, parts);
    Ok(Stmt { kind, line })
}

/// `import path as alias`
pub fn import(
    alloc: Global,
    path: Vec<NameId>,
    alias: NameId,
    line: LineNo,
) -> Result<Stmt, AllocError>
    ensures { IfOk result (λ made. stmt_view made ≡ statement (tree.import (record { path = path.items; alias = Some alias } ∷ [])) line) }
{
    let mut parts = Vec::new(alloc);
    parts.push(ImportPart {
        path,
        alias: Some(alias),
    })?;
    let kind = StmtKind::Import(parts);
    Ok(Stmt { kind, line })
}

/// `first = second = value`
pub fn assign(alloc: Global, first: Expr, second: Expr, value: Expr) -> Result<Stmt, AllocError>
    ensures { IfOk result (λ made. stmt_view made ≡ statement (tree.assign (expr (expr_view first) (expr (expr_view second) no_exprs)) (expr_view value)) (line_of (expr_view first))) }
{
    let line = first.line;
    let mut targets = Vec::new(alloc);
    targets.push(first)?;
    targets.push(second)?;
    let kind = StmtKind::Assign(targets, value);
    Ok(Stmt { kind, line })
}

//! Modules in outline: what stands at their lines, in place of their text.
use super::build::{Maker, attribute, class, fun, one, statement};
use place_ids::{Id, LineNo, NameId};
use py_tree::{Arm, Expr, ExprKind, FromPart, Handler, ImportPart, Member, Module, Stmt, StmtKind};
use scope_rules::Rule;
use std::alloc::Global;
use std::test::Fail;

/// A line. Those of the last group have a body: the lines after them that stand deeper.
#[derive(Clone, Copy)]
pub enum Line {
    Pass,
    Break,
    Continue,
    Return,
    /// `return 1`
    ReturnValue,
    /// `super().m`
    Super,
    /// `return super().g()`, without the call.
    ReturnSuper,
    /// `NAME = 1`
    Assign(&'static str),
    /// `NAME: int`
    Annotated(&'static str),
    /// `NAME = OTHER`
    Read(&'static str, &'static str),
    /// `o.NAME = 1`
    Store(&'static str),
    /// `o.NAME: int`
    AnnotatedStore(&'static str),
    /// `import NAME`
    Import(&'static str),
    /// `from m import NAME`
    From(&'static str),

    /// `if 1:`
    If,
    /// `while 1:`
    While,
    /// `for NAME in 1:`
    For(&'static str),
    /// `try: pass` and then `except 1 as NAME:`
    Except(&'static str),
    /// `def NAME(PARAMS):`
    Def(&'static str, &'static [&'static str]),
    /// `class NAME(BASE):`, or no base where that is empty.
    Class(&'static str, &'static str),
}

/// Lines with their numbers and depths, and the fault that is wanted.
pub struct Row {
    pub lines: &'static [(u32, usize, Line)],
    pub want: Option<(Rule, u32)>,
}

/// The tree of an outline. Its lines are read from the end, so that a body is there before its head.
pub fn module_of(alloc: Global, lines: &[(u32, usize, Line)]) -> Result<Module, Fail> {
    let mut maker = Maker::new(alloc);
    let mut blocks = vec![in alloc;
        Vec::new(alloc),
        Vec::new(alloc),
        Vec::new(alloc),
        Vec::new(alloc),
    ]?;
    let mut counts = counts_of(lines);
    for (number, depth, line) in lines.iter().rev() {
        let body = take_block(alloc, &mut blocks, depth.saturating_add(1));
        counts = counts.before(*line);
        let kind = kind_of(&mut maker, *line, *number, counts, body)?;
        put_first(&mut blocks, *depth, statement(kind, *number))?;
    }
    let body = take_block(alloc, &mut blocks, 0);
    Ok(maker.module(body))
}

// How many functions and classes there are.
#[derive(Clone, Copy)]
struct Counts {
    functions: u32,
    classes: u32,
}

impl Counts {
    fn before(self, line: Line) -> Counts {
        match line {
            Line::Def(_, _) => Counts {
                functions: self.functions.wrapping_sub(1),
                classes: self.classes,
            },
            Line::Class(_, _) => Counts {
                functions: self.functions,
                classes: self.classes.wrapping_sub(1),
            },
            _ => self,
        }
    }

    fn after(self, line: Line) -> Counts {
        match line {
            Line::Def(_, _) => Counts {
                functions: self.functions.wrapping_add(1),
                classes: self.classes,
            },
            Line::Class(_, _) => Counts {
                functions: self.functions,
                classes: self.classes.wrapping_add(1),
            },
            _ => self,
        }
    }
}

fn counts_of(lines: &[(u32, usize, Line)]) -> Counts {
    let mut counts = Counts {
        functions: 0,
        classes: 0,
    };
    for (_, _, line) in lines {
        counts = counts.after(*line);
    }
    counts
}

fn take_block(alloc: Global, blocks: &mut Vec<Vec<Stmt>>, depth: usize) -> Vec<Stmt> {
    match blocks.get_mut(depth) {
        Some(block) => std::mem::replace(block, Vec::new(alloc)),
        None => Vec::new(alloc),
    }
}

fn put_first(blocks: &mut Vec<Vec<Stmt>>, depth: usize, stmt: Stmt) -> Result<(), Fail> {
    if let Some(block) = blocks.get_mut(depth) {
        block.insert(0, stmt)?;
    }
    Ok(())
}

fn kind_of(
    maker: &mut Maker,
    line: Line,
    number: u32,
    counts: Counts,
    body: Vec<Stmt>,
) -> Result<StmtKind, Fail> {
    match line {
        Line::If | Line::While | Line::For(_) | Line::Except(_) => {
            block_of(maker, line, number, body)
        }
        Line::Def(name, params) => {
            let name = maker.id(name)?;
            let params = maker.params(params)?;
            Ok(StmtKind::Def(fun(counts.functions, name, params, body, number)))
        }
        Line::Class(name, base) => {
            let name = maker.id(name)?;
            let base = base_of(maker, base)?;
            let members = members_of(maker.alloc, body)?;
            Ok(StmtKind::Class(class(counts.classes, name, base, members, number)))
        }
        _ => simple_of(maker, line, number),
    }
}

fn members_of(alloc: Global, body: Vec<Stmt>) -> Result<Vec<Member>, Fail> {
    let mut members = Vec::new(alloc);
    for stmt in body {
        members.push(member_of(stmt))?;
    }
    Ok(members)
}

fn base_of(maker: &mut Maker, base: &str) -> Result<Option<NameId>, Fail> {
    if base.is_empty() {
        return Ok(None);
    }
    Ok(Some(maker.id(base)?))
}

// What a statement of a class body is as a member.
fn member_of(stmt: Stmt) -> Member {
    let Stmt { kind, line } = stmt;
    match kind {
        StmtKind::Def(fun) => Member::Method(fun),
        StmtKind::Assign(targets, value) => Member::Value(first_name(&targets), value, line),
        StmtKind::Annotated(target, value) => Member::Annotated(name_of(&target), value, line),
        _ => Member::Pass,
    }
}

fn first_name(targets: &[Expr]) -> NameId {
    match targets {
        [first, ..] => name_of(first),
        [] => NameId::new(0),
    }
}

fn name_of(expr: &Expr) -> NameId {
    match expr.kind {
        ExprKind::Name(name) => name,
        _ => NameId::new(0),
    }
}

fn block_of(maker: &mut Maker, line: Line, number: u32, body: Vec<Stmt>) -> Result<StmtKind, Fail> {
    let alloc = maker.alloc;
    let test = one(number);
    match line {
        Line::If => {
            let arms = vec![in alloc; Arm { test, body }]?;
            Ok(StmtKind::If(arms, Vec::new(alloc)))
        }
        Line::For(name) => Ok(StmtKind::For(maker.word(name, number)?, test, body)),
        Line::Except(name) => {
            let handler = Handler {
                class: Some(test),
                name: Some(maker.id(name)?),
                body,
                line: LineNo::new(number),
            };
            let handlers = vec![in alloc; handler]?;
            Ok(StmtKind::Try(Vec::new(alloc), handlers, Vec::new(alloc)))
        }
        _ => Ok(StmtKind::While(test, body)),
    }
}

fn simple_of(maker: &mut Maker, line: Line, number: u32) -> Result<StmtKind, Fail> {
    match line {
        Line::Break => Ok(StmtKind::Break),
        Line::Continue => Ok(StmtKind::Continue),
        Line::Return => Ok(StmtKind::Return(None)),
        Line::ReturnValue => Ok(StmtKind::Return(Some(one(number)))),
        Line::Super => Ok(StmtKind::Expression(maker.above("m", number)?)),
        Line::ReturnSuper => Ok(StmtKind::Return(Some(maker.above("g", number)?))),
        Line::Import(name) => import_of(maker, name),
        Line::From(name) => from_of(maker, name),
        Line::Pass => Ok(StmtKind::Pass),
        _ => store_of(maker, line, number),
    }
}

fn store_of(maker: &mut Maker, line: Line, number: u32) -> Result<StmtKind, Fail> {
    match line {
        Line::Assign(name) => assign_of(maker.alloc, maker.word(name, number)?, one(number)),
        Line::Read(name, other) => {
            let value = maker.word(other, number)?;
            assign_of(maker.alloc, maker.word(name, number)?, value)
        }
        Line::Store(name) => assign_of(maker.alloc, member(maker, name, number)?, one(number)),
        Line::Annotated(name) => Ok(StmtKind::Annotated(maker.word(name, number)?, None)),
        Line::AnnotatedStore(name) => Ok(StmtKind::Annotated(member(maker, name, number)?, None)),
        _ => Ok(StmtKind::Pass),
    }
}

fn assign_of(alloc: Global, target: Expr, value: Expr) -> Result<StmtKind, Fail> {
    Ok(StmtKind::Assign(vec![in alloc; target]?, value))
}

fn member(maker: &mut Maker, name: &str, number: u32) -> Result<Expr, Fail> {
    let alloc = maker.alloc;
    let object = maker.word("o", number)?;
    let name = maker.id(name)?;
    Ok(attribute(alloc, object, name, number)?)
}

fn import_of(maker: &mut Maker, name: &str) -> Result<StmtKind, Fail> {
    let alloc = maker.alloc;
    let path = vec![in alloc; maker.id(name)?]?;
    let part = ImportPart { path, alias: None };
    Ok(StmtKind::Import(vec![in alloc; part]?))
}

fn from_of(maker: &mut Maker, name: &str) -> Result<StmtKind, Fail> {
    let alloc = maker.alloc;
    let path = vec![in alloc; maker.id("m")?]?;
    let part = FromPart {
        name: maker.id(name)?,
        alias: None,
    };
    Ok(StmtKind::From(path, vec![in alloc; part]?))
}

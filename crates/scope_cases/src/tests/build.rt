//! Nodes of the trees that the tests look at.
use place_ids::{ClassId, FunId, Id, LineNo, NameId, Names, PushFault, SiteId};
use py_tree::{ClassDef, Expr, ExprKind, FunDef, Literal, Member, Module, Param, Stmt, StmtKind};
use std::alloc::{AllocError, Global};

/// Makes names, and the nodes that have them.
#[derive(Drop)]
pub struct Maker {
    pub alloc: Global,
    pub names: Names,
}

impl Maker {
    pub fn new(alloc: Global) -> Maker {
        Maker {
            alloc,
            names: Names::new(alloc),
        }
    }

    pub fn id(&mut self, text: &str) -> Result<NameId, PushFault> {
        self.names.intern(text)
    }

    pub fn word(&mut self, text: &str, line: u32) -> Result<Expr, PushFault> {
        let kind = ExprKind::Name(self.id(text)?);
        Ok(node(kind, line))
    }

    /// `super().text`
    pub fn above(&mut self, text: &str, line: u32) -> Result<Expr, PushFault> {
        let kind = ExprKind::Super(self.id(text)?);
        Ok(node(kind, line))
    }

    pub fn params(&mut self, texts: &[&str]) -> Result<Vec<Param>, PushFault> {
        let mut params = Vec::new(self.alloc);
        for text in texts {
            let name = self.id(text)?;
            let param = Param {
                name,
                default: None,
            };
            if params.push(param).is_err() {
                return Err(PushFault::Memory);
            }
        }
        Ok(params)
    }

    pub fn module(self, body: Vec<Stmt>) -> Module {
        let Maker { alloc: _, names } = self;
        Module { body, names }
    }
}

pub fn node(kind: ExprKind, line: u32) -> Expr {
    Expr {
        kind,
        line: LineNo::new(line),
        site: SiteId::new(0),
    }
}

/// `1`
pub fn one(line: u32) -> Expr {
    node(ExprKind::Literal(Literal::Int(false, 1)), line)
}

pub fn statement(kind: StmtKind, line: u32) -> Stmt {
    Stmt {
        kind,
        line: LineNo::new(line),
    }
}

/// `object.name`
pub fn attribute(alloc: Global, object: Expr, name: NameId, line: u32) -> Result<Expr, AllocError> {
    let object = Box::new(alloc, object)?;
    Ok(node(ExprKind::Attr(object, name), line))
}

pub fn fun(id: u32, name: NameId, params: Vec<Param>, body: Vec<Stmt>, line: u32) -> FunDef {
    FunDef {
        id: FunId::new(id),
        name,
        params,
        body,
        line: LineNo::new(line),
    }
}

pub fn class(
    id: u32,
    name: NameId,
    base: Option<NameId>,
    members: Vec<Member>,
    line: u32,
) -> ClassDef {
    ClassDef {
        id: ClassId::new(id),
        name,
        base,
        members,
        line: LineNo::new(line),
    }
}

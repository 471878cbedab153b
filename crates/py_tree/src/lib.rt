//! The tree of a Python module.
#![tactic(auto)]

mod definition;
mod expression;
mod literal;
mod module;
mod native;
mod statement;
#[cfg(test)]
mod tests;

pub use definition::{ClassDef, FunDef, Member, Param};
pub use expression::{Arg, Expr, ExprKind, Pair};
pub use literal::Literal;
pub use module::Module;
pub use native::NativeName;
pub use statement::{Arm, FromPart, Handler, ImportPart, Stmt, StmtKind};

//! Trees as texts. Each expression is followed by `#` and its site, and by `@` and its line where that isn't its statement's.
use place_ids::{Id, LineNo, NameId, Names};
use py_tree::{
    Arg, Arm, ClassDef, Expr, ExprKind, FromPart, FunDef, Handler, ImportPart, Literal, Member,
    Module, Pair, Param, Stmt, StmtKind,
};
use std::alloc::{AllocError, Global};

/// Prints a tree.
#[derive(Drop)]
pub(crate) struct Printer<'m> {
    names: &'m Names,
    out: String,
    indent: usize,
    line: LineNo,
}

/// The text of a module's tree.
pub(crate) fn printed(alloc: Global, module: &Module) -> Result<String, AllocError> {
    let mut printer = Printer {
        names: &module.names,
        out: String::new(alloc),
        indent: 0,
        line: LineNo::new(0),
    };
    printer.stmts(&module.body)?;
    let Printer { out, .. } = printer;
    Ok(out)
}

impl<'m> Printer<'m> {
    fn put(&mut self, text: &str) -> Result<(), AllocError> {
        self.out.push_str(text)
    }

    fn name(&mut self, name: NameId) -> Result<(), AllocError> {
        let text = self.names.text(name).unwrap_or("?");
        self.out.push_str(text)
    }

    fn margin(&mut self) -> Result<(), AllocError> {
        for _ in 0..self.indent {
            self.put("  ")?;
        }
        Ok(())
    }

    fn literal(&mut self, literal: Literal) -> Result<(), AllocError> {
        match literal {
            Literal::NoneValue => self.put("None"),
            Literal::TrueValue => self.put("True"),
            Literal::FalseValue => self.put("False"),
            Literal::Int(true, value) => write!(self.out, "-{value}"),
            Literal::Int(false, value) => write!(self.out, "{value}"),
            Literal::Float => self.put("float"),
            Literal::Str(empty) => self.put(if empty { "str0" } else { "str" }),
            Literal::Bytes(empty) => self.put(if empty { "bytes0" } else { "bytes" }),
        }
    }

    #[cycle(printing)]
    fn expr(&mut self, expr: &Expr) -> Result<(), AllocError> {
        self.head(&expr.kind)?;
        self.parts(&expr.kind)?;
        let site = expr.site.number();
        write!(self.out, "#{site}")?;
        if expr.line != self.line {
            let line = expr.line.number();
            write!(self.out, "@{line}")?;
        }
        Ok(())
    }

    // The word of an expression.
    fn head(&mut self, kind: &ExprKind) -> Result<(), AllocError> {
        match kind {
            ExprKind::Name(name) => self.name(*name),
            ExprKind::Literal(literal) => self.literal(*literal),
            ExprKind::Unary(op, _) => write!(self.out, "{op:?}"),
            ExprKind::Binary(op, _, _) => write!(self.out, "{op:?}"),
            ExprKind::Compare(op, _, _) => write!(self.out, "{op:?}"),
            ExprKind::Super(name) => {
                self.put("super.")?;
                self.name(*name)
            }
            ExprKind::Attr(_, name) => {
                self.put(".")?;
                self.name(*name)
            }
            _ => self.put(word(kind)),
        }
    }

    #[cycle(printing)]
    fn parts(&mut self, kind: &ExprKind) -> Result<(), AllocError> {
        match kind {
            ExprKind::Name(_) | ExprKind::Literal(_) | ExprKind::Super(_) => Ok(()),
            ExprKind::Unary(_, part) | ExprKind::Not(part) | ExprKind::Attr(part, _) => {
                self.put("(")?;
                self.part(part, ")")
            }
            ExprKind::Binary(_, left, right) | ExprKind::Compare(_, left, right) => {
                self.put("(")?;
                self.part(left, " ")?;
                self.part(right, ")")
            }
            ExprKind::And(left, right) | ExprKind::Or(left, right) | ExprKind::Item(left, right) =>
                {
                    self.put("(")?;
                    self.part(left, " ")?;
                    self.part(right, ")")
                }
            ExprKind::Choice(then, test, other) => {
                self.put("(")?;
                self.part(then, " ")?;
                self.part(test, " ")?;
                self.part(other, ")")
            }
            ExprKind::Slice(object, lower, upper, step) => {
                self.put("(")?;
                self.expr(object)?;
                self.bound(lower)?;
                self.bound(upper)?;
                self.bound(step)?;
                self.put(")")
            }
            ExprKind::Call(function, args) => {
                self.put("(")?;
                self.expr(function)?;
                self.args(args)?;
                self.put(")")
            }
            ExprKind::Tuple(items) | ExprKind::List(items) => self.items(items),
            ExprKind::Dict(pairs) => self.pairs(pairs),
        }
    }

    // An expression, and what stands after it.
    #[cycle(printing)]
    fn part(&mut self, part: &Expr, after: &str) -> Result<(), AllocError> {
        self.expr(part)?;
        self.put(after)
    }

    #[cycle(printing)]
    fn bound(&mut self, bound: &Option<Box<Expr>>) -> Result<(), AllocError> {
        self.put(" ")?;
        match bound {
            Some(bound) => self.expr(bound),
            None => self.put("_"),
        }
    }

    #[cycle(printing)]
    fn args(&mut self, args: &[Arg]) -> Result<(), AllocError> {
        for arg in args {
            self.put(" ")?;
            if let Some(name) = arg.name {
                self.name(name)?;
                self.put("=")?;
            }
            self.expr(&arg.value)?;
        }
        Ok(())
    }

    #[cycle(printing)]
    fn items(&mut self, items: &[Expr]) -> Result<(), AllocError> {
        self.put("(")?;
        for (place, item) in items.iter().enumerate() {
            if place > 0 {
                self.put(" ")?;
            }
            self.expr(item)?;
        }
        self.put(")")
    }

    #[cycle(printing)]
    fn pairs(&mut self, pairs: &[Pair]) -> Result<(), AllocError> {
        self.put("(")?;
        for (place, pair) in pairs.iter().enumerate() {
            if place > 0 {
                self.put(" ")?;
            }
            self.expr(&pair.key)?;
            self.put(":")?;
            self.expr(&pair.value)?;
        }
        self.put(")")
    }
}

// The word of an expression that is known by its kind alone.
fn word(kind: &ExprKind) -> &'static str {
    match kind {
        ExprKind::Not(_) => "Not",
        ExprKind::And(..) => "And",
        ExprKind::Or(..) => "Or",
        ExprKind::Choice(..) => "Choice",
        ExprKind::Item(..) => "Item",
        ExprKind::Slice(..) => "Slice",
        ExprKind::Call(..) => "Call",
        ExprKind::Tuple(_) => "Tuple",
        ExprKind::List(_) => "List",
        ExprKind::Dict(_) => "Dict",
        _ => "",
    }
}

impl<'m> Printer<'m> {
    #[cycle(printing_statements)]
    fn stmts(&mut self, body: &[Stmt]) -> Result<(), AllocError> {
        for stmt in body {
            self.stmt(stmt)?;
        }
        Ok(())
    }

    #[cycle(printing_statements)]
    fn stmt(&mut self, stmt: &Stmt) -> Result<(), AllocError> {
        self.margin()?;
        self.line = stmt.line;
        let line = stmt.line.number();
        write!(self.out, "{line} ")?;
        self.simple(&stmt.kind)?;
        self.put("\n")?;
        self.blocks(&stmt.kind)
    }

    // A statement, or the header of one.
    fn simple(&mut self, kind: &StmtKind) -> Result<(), AllocError> {
        match kind {
            StmtKind::Pass => self.put("Pass"),
            StmtKind::Break => self.put("Break"),
            StmtKind::Continue => self.put("Continue"),
            StmtKind::Ellipsis => self.put("Ellipsis"),
            StmtKind::Return(value) => self.two("Return", value, &None),
            StmtKind::Raise(value, cause) => self.two("Raise", value, cause),
            StmtKind::Import(parts) => self.import(parts),
            StmtKind::From(path, parts) => self.import_from(path, parts),
            StmtKind::If(..) => self.put("If"),
            StmtKind::Try(..) => self.put("Try"),
            StmtKind::Def(fun) => self.fun_def(fun),
            StmtKind::Class(class) => self.class_def(class),
            _ => self.values(kind),
        }
    }

    fn values(&mut self, kind: &StmtKind) -> Result<(), AllocError> {
        match kind {
            StmtKind::Assert(test, message) => self.one("Assert", test, message),
            StmtKind::Annotated(target, value) => self.one("Annotated", target, value),
            StmtKind::Expression(value) => self.one("Expression", value, &None),
            StmtKind::While(test, _) => self.one("While", test, &None),
            StmtKind::For(target, iterable, _) => {
                self.one("For", target, &None)?;
                self.put(" in ")?;
                self.expr(iterable)
            }
            StmtKind::Augment(target, op, value) => {
                self.one("Augment", target, &None)?;
                write!(self.out, " {op:?} ")?;
                self.expr(value)
            }
            StmtKind::Assign(targets, value) => self.assign(targets, value),
            _ => self.put("?"),
        }
    }

    fn assign(&mut self, targets: &[Expr], value: &Expr) -> Result<(), AllocError> {
        self.put("Assign ")?;
        for target in targets {
            self.expr(target)?;
            self.put(" = ")?;
        }
        self.expr(value)
    }

    fn one(&mut self, word: &str, first: &Expr, second: &Option<Expr>) -> Result<(), AllocError> {
        self.put(word)?;
        self.put(" ")?;
        self.expr(first)?;
        self.two("", second, &None)
    }

    fn two(
        &mut self,
        word: &str,
        first: &Option<Expr>,
        second: &Option<Expr>,
    ) -> Result<(), AllocError> {
        self.put(word)?;
        if let Some(first) = first {
            self.put(" ")?;
            self.expr(first)?;
        }
        if let Some(second) = second {
            self.put(" ")?;
            self.expr(second)?;
        }
        Ok(())
    }

    fn path(&mut self, path: &[NameId]) -> Result<(), AllocError> {
        for (place, name) in path.iter().enumerate() {
            if place > 0 {
                self.put(".")?;
            }
            self.name(*name)?;
        }
        Ok(())
    }

    fn alias(&mut self, alias: Option<NameId>) -> Result<(), AllocError> {
        if let Some(alias) = alias {
            self.put(" as ")?;
            self.name(alias)?;
        }
        Ok(())
    }

    fn import(&mut self, parts: &[ImportPart]) -> Result<(), AllocError> {
        self.put("Import")?;
        for part in parts {
            self.put(" ")?;
            self.path(&part.path)?;
            self.alias(part.alias)?;
        }
        Ok(())
    }

    fn import_from(&mut self, path: &[NameId], parts: &[FromPart]) -> Result<(), AllocError> {
        self.put("From ")?;
        self.path(path)?;
        for part in parts {
            self.put(" ")?;
            self.name(part.name)?;
            self.alias(part.alias)?;
        }
        Ok(())
    }

    fn fun_def(&mut self, fun: &FunDef) -> Result<(), AllocError> {
        let id = fun.id.number();
        write!(self.out, "Def {id} ")?;
        self.name(fun.name)?;
        for param in fun.params.iter() {
            self.param(param)?;
        }
        self.at_line(fun.line)
    }

    fn param(&mut self, param: &Param) -> Result<(), AllocError> {
        self.put(" ")?;
        self.name(param.name)?;
        if let Some(default) = param.default {
            self.put("=")?;
            self.literal(default)?;
        }
        Ok(())
    }

    fn class_def(&mut self, class: &ClassDef) -> Result<(), AllocError> {
        let id = class.id.number();
        write!(self.out, "Class {id} ")?;
        self.name(class.name)?;
        if let Some(base) = class.base {
            self.put(" ")?;
            self.name(base)?;
        }
        self.at_line(class.line)
    }

    // A line, where it isn't that of the statement.
    fn at_line(&mut self, line: LineNo) -> Result<(), AllocError> {
        if line != self.line {
            let line = line.number();
            write!(self.out, "@{line}")?;
        }
        Ok(())
    }

    #[cycle(printing_statements)]
    fn blocks(&mut self, kind: &StmtKind) -> Result<(), AllocError> {
        match kind {
            StmtKind::If(arms, other) => {
                self.arms(arms)?;
                self.block(other, "Else")
            }
            StmtKind::While(_, body) | StmtKind::For(_, _, body) => self.block(body, ""),
            StmtKind::Try(body, handlers, other) => {
                self.block(body, "")?;
                self.handlers(handlers)?;
                self.block(other, "Else")
            }
            StmtKind::Def(fun) => self.block(&fun.body, ""),
            StmtKind::Class(class) => self.members(&class.members),
            _ => Ok(()),
        }
    }

    // Statements, one step further in, under a word.
    #[cycle(printing_statements)]
    fn block(&mut self, body: &[Stmt], word: &str) -> Result<(), AllocError> {
        if body.is_empty() {
            return Ok(());
        }
        if !word.is_empty() {
            self.margin()?;
            self.put(word)?;
            self.put("\n")?;
        }
        let (indent, line) = (self.indent, self.line);
        self.indent = indent.saturating_add(1);
        self.stmts(body)?;
        self.indent = indent;
        self.line = line;
        Ok(())
    }

    #[cycle(printing_statements)]
    fn arms(&mut self, arms: &[Arm]) -> Result<(), AllocError> {
        for arm in arms {
            self.margin()?;
            self.one("Arm", &arm.test, &None)?;
            self.put("\n")?;
            self.block(&arm.body, "")?;
        }
        Ok(())
    }

    #[cycle(printing_statements)]
    fn handlers(&mut self, handlers: &[Handler]) -> Result<(), AllocError> {
        for handler in handlers {
            self.margin()?;
            self.line = handler.line;
            let line = handler.line.number();
            write!(self.out, "{line} ")?;
            self.two("Except", &handler.class, &None)?;
            self.alias(handler.name)?;
            self.put("\n")?;
            self.block(&handler.body, "")?;
        }
        Ok(())
    }

    #[cycle(printing_statements)]
    fn members(&mut self, members: &[Member]) -> Result<(), AllocError> {
        for member in members {
            self.put("  ")?;
            self.member(member)?;
            if let Member::Method(fun) = member {
                self.indent = 1;
                self.block(&fun.body, "")?;
                self.indent = 0;
            }
        }
        Ok(())
    }

    fn member(&mut self, member: &Member) -> Result<(), AllocError> {
        match member {
            Member::Pass => self.put("Pass")?,
            Member::Ellipsis => self.put("Ellipsis")?,
            Member::Text => self.put("Text")?,
            Member::Value(name, value, line) => self.named("Value", *name, Some(value), *line)?,
            Member::Annotated(name, value, line) => self.named(
                "Annotated",
                *name,
                value.as_ref(),
                *line,
            )?,
            Member::Method(fun) => {
                self.line = fun.line;
                let line = fun.line.number();
                write!(self.out, "{line} ")?;
                self.fun_def(fun)?;
            }
        }
        self.put("\n")
    }

    fn named(
        &mut self,
        word: &str,
        name: NameId,
        value: Option<&Expr>,
        line: LineNo,
    ) -> Result<(), AllocError> {
        self.line = line;
        let number = line.number();
        write!(self.out, "{number} {word} ")?;
        self.name(name)?;
        if let Some(value) = value {
            self.put(" ")?;
            self.expr(value)?;
        }
        Ok(())
    }
}

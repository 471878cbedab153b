//! Generated texts on their way to a program.
use anyhow::{Result, bail};
use block_compile::{Program, compile};
use place_ids::{FunId, Id};
use py_parse::parse;
use py_scope::scope;
use py_tokens::tokens;
use py_tree::Module;
use std::alloc::{AllocError, Global};

/// A text has at most so many bytes.
const LONGEST: u32 = 262144;

/// What a text repeats, line by line.
#[derive(Clone, Copy)]
pub enum Pattern {
    /// Assignments to names that rise.
    Names,
    /// A `try` with one clause.
    Tries,
    /// Classes, each of which has the one before as its base.
    Classes,
    /// Statements of one function.
    Statements,
    /// Functions of one line.
    Functions,
}

/// How much a text has on each step.
#[derive(Clone, Copy)]
pub struct Counts {
    pub bytes: usize,
    pub tokens: usize,
    pub instructions: usize,
}

impl Pattern {
    // What stands before the first line.
    fn head(self) -> &'static str {
        match self {
            Pattern::Names | Pattern::Functions => "",
            Pattern::Tries => "x=1\n",
            Pattern::Classes => "class C100000:pass\n",
            Pattern::Statements => "def f(a):\n",
        }
    }

    fn put_line(self, text: &mut String, number: u32) -> Result<(), AllocError> {
        let before = number.saturating_add(100000);
        let here = before.saturating_add(1);
        match self {
            Pattern::Names => write!(text, "n{here}=1\n"),
            Pattern::Tries => text.push_str("try:x\nexcept:x\n"),
            Pattern::Classes => write!(text, "class C{here}(C{before}):pass\n"),
            Pattern::Statements => text.push_str(" a=a+1\n"),
            Pattern::Functions => write!(text, "def f{here}(a):return a\n"),
        }
    }
}

// Lines of a pattern, as long as each further one is sure to fit.
fn text_of(alloc: Global, pattern: Pattern, bytes: u32) -> Result<String, AllocError> {
    let mut text = String::new(alloc);
    text.push_str(pattern.head())?;
    for number in 0..bytes {
        if text.len().saturating_add(28) > bytes as usize {
            break;
        }
        pattern.put_line(&mut text, number)?;
    }
    Ok(text)
}

fn tree_of(alloc: Global, text: &str) -> Result<(usize, Module)> {
    if text.len() > LONGEST as usize {
        bail!("a text that is too long");
    }
    let tokens = tokens(alloc, text)?;
    let module = parse(alloc, &tokens)?;
    Ok((tokens.len(), module))
}

fn program_of(alloc: Global, module: Module) -> Result<Program> {
    let scopes = scope(alloc, &module)?;
    let program = compile(alloc, module, scopes)?;
    Ok(program)
}

// How many instructions a program has, all its codes together.
fn instructions(program: &Program) -> usize {
    let mut count = program.module_code().code().ops.len();
    for number in 0..program.fun_count() {
        if let Some(code) = program.fun_code(FunId::new(number)) {
            count = count.saturating_add(code.code().ops.len());
        }
    }
    count
}

/// The counts of so many KiB of a pattern.
pub fn count_text(alloc: Global, pattern: Pattern, size: u32) -> Result<Counts> {
    let bytes = size.saturating_mul(1024).min(LONGEST);
    let text = text_of(alloc, pattern, bytes)?;
    let (tokens, module) = tree_of(alloc, text.as_str())?;
    let program = program_of(alloc, module)?;
    Ok(Counts {
        bytes: text.len(),
        tokens,
        instructions: instructions(&program),
    })
}

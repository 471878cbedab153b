//! Where on its line a scan stands, and what leading space makes.
ghost use Rattle.std.specs.Prelude.{◌≡◌, ◌+◌, ◌^◌, ◌<◌, ◌≤◌, ◌==◌, length};
ghost use Rattle.std.specs.List.{list_all};
ghost use Rattle.py_tokens.specs.Margins.{clashes, column_from, filling_of, first_filling, next_column};

use place_ids::Span;

/// What leading space is made of.
#[derive(Clone, Copy)]
pub(crate) enum Filling {
    Nothing,
    Spaces,
    Tabs,
    Mixed,
}

/// The leading space of the first line of a logical line.
#[derive(Clone, Copy)]
pub(crate) struct Margin {
    pub(crate) span: Span,
    pub(crate) column: u32,
    pub(crate) filling: Filling,
    /// Whether it has ended a block.
    pub(crate) ends_block: bool,
}

/// Where on its line a scan stands.
#[derive(Clone, Copy)]
pub(crate) enum Place {
    /// At the start of a line that may begin a logical line.
    Start,
    /// Past the leading space of such a line, before its first token.
    Margin(Margin),
    /// Within a logical line.
    Line,
}

// The column past a byte of leading space: a tab goes on to the next multiple of eight.
fn next_column(column: u32, byte: u8) -> u32
    requires { column + 8 < 2 ^ 32 }
    ensures exact { result ≡ next_column column byte }
    ensures near { result ≤ column + 8 }
{
    if byte == b'\t' {
        column + (8 - column % 8)
    } else {
        column + 1
    }
}

/// The column that leading space makes ("Indentation").
pub(crate) fn column_of(space: &[u8]) -> u32
    requires { length space.now ≤ 262144 }
    ensures { result ≡ column_from 0 space.now }
{
    let mut column = 0;
    for at in 0..space.len() {
        column = next_column(column, space[at]);
    }
    column
}

fn is_all(space: &[u8], byte: u8) -> bool
    ensures { result ≡ list_all (λ b. b == byte) space.now }
{
    space.iter().all(|other| *other == byte)
}

/// What leading space is made of.
pub(crate) fn filling_of(space: &[u8]) -> Filling
    ensures { result ≡ filling_of space.now }
{
    if space.is_empty() {
        Filling::Nothing
    } else if is_all(space, b' ') {
        Filling::Spaces
    } else if is_all(space, b'\t') {
        Filling::Tabs
    } else {
        Filling::Mixed
    }
}

/// Whether leading space of the second kind may not stand under a first indented line of the first.
pub(crate) fn clashes(first: Filling, second: Filling) -> bool
    ensures { result ≡ clashes first second }
{
    match (first, second) {
        (_, Filling::Mixed) => true,
        (Filling::Spaces, Filling::Tabs) | (Filling::Tabs, Filling::Spaces) => true,
        _ => false,
    }
}

/// The kind of the first indented line, after a line of the second kind.
pub(crate) fn first_filling(first: Filling, second: Filling) -> Filling
    ensures { result ≡ first_filling first second }
{
    match first {
        Filling::Nothing => second,
        _ => first,
    }
}

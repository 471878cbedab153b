//! Lines of nodes, and the least of them.
ghost use Rattle.std.specs.Prelude.{◌≡◌, ◌++◌, OnOk};
ghost use Rattle.built_forms.specs.Least as spec;
ghost use Rattle.built_forms.specs.Unbuilt.{unless};

use place_ids::{LineNo, Sequence};
use std::alloc::AllocError;

/// Puts the line of a node at the end if its form isn't built.
pub(crate) fn put_unless(
    built: bool,
    line: LineNo,
    out: &mut Sequence<LineNo>,
) -> Result<(), AllocError>
    ensures { OnOk result (out.new ≡ out.old ++ unless built line) }
{
    if built {
        return Ok(());
    }
    out.push(line)
}

fn lesser(least: Option<LineNo>, line: LineNo) -> LineNo
    ensures { result ≡ spec.lesser least line }
{
    match least {
        Some(least) => { if line < least { line } else { least } }
        None => line,
    }
}

/// The least of some lines, if there is one.
pub(crate) fn least(lines: &[LineNo]) -> Option<LineNo>
    ensures { result ≡ spec.least lines.now }
{
    let mut least = None;
    for line in lines {
        least = Some(lesser(least, *line));
    }
    least
}

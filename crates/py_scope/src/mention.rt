//! A name where it stands.
ghost use Rattle.std.specs.Prelude.{◌≡◌};
ghost use Rattle.scope_rules.specs.Mentions as spec;

use place_ids::{LineNo, NameId};
use scope_rules::{Mention, Role};

/// A name in a role at a line.
pub(crate) fn at(role: Role, name: NameId, line: LineNo) -> Mention
    ensures { result ≡ spec.at role name line }
{
    Mention { name, role, line }
}

//! Which variable a list of bindings gives two shapes.
ghost use Rattle.std.specs.Prelude.{[], ◌↔◌, ◌≡◌, ◌≢◌, IsTrue};
ghost use Rattle.std.specs.List.{Contains};
ghost use Rattle.typegraph.specs.Maps.{HasTwoShapes};
ghost use Rattle.typegraph.specs.Clashes.{ClashesWith, IsFirstClash};

use crate::goals::Binding;
use place_ids::VarId;

/// The variable of the first binding that another shape of it stands before.
pub fn first_clash(list: &[Binding]) -> VarId
    requires { HasTwoShapes [] list.now }
    ensures { IsFirstClash list.now result }
{
    for (place, binding) in list.iter().enumerate() {
        if clashes(&list[..place], binding) {
            return binding.var;
        }
    }
    unreachable!()
}

// Whether one of the bindings gives the binding's variable another shape.
fn clashes(before: &[Binding], binding: &Binding) -> bool
    ensures { IsTrue result ↔ ClashesWith before.now binding.now }
{
    for other in before {
        if other.var == binding.var && other.shape != binding.shape {
            return true;
        }
    }
    false
}

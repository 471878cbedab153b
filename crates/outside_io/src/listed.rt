//! Whether the number of a call is among those that are to fail.
ghost use Rattle.std.specs.Prelude.{◌↔◌, Contains, IsTrue};

pub(crate) fn is_listed(fails: &[u32], number: u64) -> bool
    ensures { IsTrue result ↔ Contains fails.now number }
{
    fails.iter().any(|listed| u64::from(*listed) == number)
}

//! The stubs that are given.
ghost use Rattle.std.specs.Prelude.{◌≡◌, ℕ, Some, List, [], ◌∷◌, ◌++◌, option_map, map, IfSome, OnOk, OnErr};
ghost use Rattle.std.specs.Str.{bytes_eq};
ghost use Rattle.type_terms.specs.Stubs.{Stub as Declared, stub_view};
ghost use Rattle.type_terms.specs.ProperStubs.{IsProperStub, MayBeAdded};
ghost use Rattle.type_terms.specs.StubSets.{given, stub_named, IsGiven};

use crate::Stub;
use crate::given::GivenStub;
use place_ids::Text;
use std::alloc::{AllocError, Global};
use std::marker::Model;

/// Stubs, each under the name of its module. Contracts see the list of what was added.
#[derive(Debug, Drop)]
pub struct StubSet {
    stubs: Vec<GivenStub>,
}

impl Model for StubSet {
    ghost use Rattle.std.specs.Prelude.{List};
    ghost use Rattle.std.specs.Coded.{coded_list};
    ghost use Rattle.type_terms.specs.contracts.given.GivenStub as given_stub;
    ghost use Rattle.type_terms.specs.declared.given.GivenStub.{GivenStub};

    ghost Value = { List GivenStub };

    ghost coded = { coded_list given_stub.the_row.coded };

    ghost use Rattle.type_terms.specs.StubSets.{given, AreGiven};

    ghost view = { λ set. set.stubs.items };

    ghost invariant = { λ set. AreGiven (given set.stubs.items) };
}

impl StubSet {
    /// A set with no stubs. It takes no memory.
    pub fn new(alloc: Global) -> StubSet
        ensures { given result ≡ [] }
    {
        StubSet {
            stubs: Vec::new(alloc),
        }
    }

    /// The stub of a module, if it is given.
    pub fn find(&self, name: &str) -> Option<&Stub>
        ensures named { option_map (λ stub. stub_view stub.now) result ≡ stub_named (given self.now) name.now }
        ensures every { (stub : Declared) → IsGiven (given self.now) name.now stub → option_map (λ found. stub_view found.now) result ≡ Some stub }
        ensures proper { IfSome result (λ stub. IsProperStub (stub_view stub.now)) }
    {
        look(&self.stubs, name)
    }

    /// Puts a module's stub into the set. A stub that is refused for want of memory is dropped.
    pub fn add(&mut self, name: &str, stub: Stub) -> Result<(), AllocError>
        requires { MayBeAdded (given self.old) name.now (stub_view stub) }
        ensures added { OnOk result (given self.new ≡ given self.old ++ (name.now, stub_view stub) ∷ []) }
        ensures refused { OnErr result (self.new ≡ self.old) }
    {
        let mut text = Text::new(*self.stubs.allocator());
        text.push(name.as_bytes())?;
        self.stubs.push(GivenStub { name: text, stub })?;
        Ok(())
    }
}

// The stub under a name.
fn look<'a>(stubs: &'a [GivenStub], name: &str) -> Option<&'a Stub>
    ensures { option_map (λ stub. stub_view stub.now) result ≡ stub_named (given stubs.now) name.now }
{
    for given in stubs {
        if is_named(given, name) {
            return Some(&given.stub);
        }
    }
    None
}

fn is_named(given: &GivenStub, name: &str) -> bool
    ensures { result ≡ bytes_eq name.now given.now.name }
{
    name.as_bytes() == given.name.bytes()
}

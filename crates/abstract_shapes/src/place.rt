//! Places whose shapes are joined.
ghost use Rattle.std.specs.Prelude.{◌≡◌};
ghost use Rattle.abstract_shapes.specs.Places.{first, kind, second};

use place_ids::{ClassId, Id, NameId, SiteId};
use std::hash::{Hash, Hasher};

/// A place whose shapes are joined in one table, apart from any context.
#[derive(Clone, Copy, Debug)]
pub enum Place {
    /// An attribute of a class's instances.
    Attribute(ClassId, NameId),
    /// A member of a class itself.
    Member(ClassId, NameId),
    /// The elements of what a site makes.
    Element(SiteId),
    Key(SiteId),
    Value(SiteId),
    /// One place of a tuple that a display makes.
    Part(SiteId, u32),
    /// What a module's name stands for.
    Global(NameId),
    /// The exceptions that are raised.
    Raised,
}

impl PartialEq for Place {
    ghost use Rattle.std.proofs.Common.{rules};
    ghost use Rattle.std.specs.Cmp.Rules.{comparing};
    ghost use Rattle.abstract_shapes.specs.Places.{same_place};

    ghost eq = { same_place };

    ghost laws = { Prim.search (comparing, rules) };

    fn eq(&self, other: &Place) -> bool {
        kind(*self) == kind(*other)
            && first(*self) == first(*other)
            && second(*self) == second(*other)
    }
}

impl Eq for Place {
    ghost use Rattle.std.proofs.Common.{rules};
    ghost use Rattle.std.specs.Cmp.Rules.{comparing};

    ghost laws = { Prim.search (comparing, rules) };
}

impl Hash for Place {
    ghost use Rattle.std.specs.Prelude.{◌++◌};
    ghost use Rattle.std.proofs.Common.{rules};
    ghost use Rattle.std.specs.Cmp.Rules.{hashing};
    ghost use Rattle.std.specs.Hash as fed;
    ghost use Rattle.abstract_shapes.specs.Places.{first, kind, second};

    ghost hash_input = { λ place. fed.u8 (kind place) ++ (fed.u32 (first place) ++ fed.u32 (second place)) };

    ghost respects_eq = { Prim.search (hashing, rules) };

    fn hash<H: Hasher>(&self, state: &mut H) {
        state.write_u8(kind(*self));
        state.write_u32(first(*self));
        state.write_u32(second(*self));
    }
}

fn kind(place: Place) -> u8
    ensures { result ≡ kind place }
{
    match place {
        Place::Attribute(_, _) => 0,
        Place::Member(_, _) => 1,
        Place::Element(_) => 2,
        Place::Key(_) => 3,
        Place::Value(_) => 4,
        Place::Part(_, _) => 5,
        Place::Global(_) => 6,
        Place::Raised => 7,
    }
}

fn first(place: Place) -> u32
    ensures { result ≡ first place }
{
    match place {
        Place::Attribute(class, _) | Place::Member(class, _) => class.number(),
        Place::Element(site) | Place::Key(site) | Place::Value(site) => site.number(),
        Place::Part(site, _) => site.number(),
        Place::Global(name) => name.number(),
        Place::Raised => 0,
    }
}

fn second(place: Place) -> u32
    ensures { result ≡ second place }
{
    match place {
        Place::Attribute(_, name) | Place::Member(_, name) => name.number(),
        Place::Part(_, part) => part,
        _ => 0,
    }
}

//! Names that the profile leaves out at some places.
ghost use Rattle.std.specs.Prelude.{◌≡◌, ◌&&◌, nat_eq, codes};
ghost use Rattle.std.specs.List.{starts_with, ends_with};
ghost use Rattle.py_grammar.specs.Names.{is_private, is_special};

// Whether a text has two underscores at both ends. They may be the same ones.
fn has_both_ends(text: &str) -> bool
    ensures { result ≡ (starts_with nat_eq text.now (codes "__") && ends_with nat_eq text.now (codes "__")) }
{
    text.starts_with("__") && text.ends_with("__")
}

/// Whether a name is one that the language calls itself ("Special method names"). `__init__` alone is within the profile.
pub(crate) fn is_barred_special(text: &str) -> bool
    ensures { result ≡ is_special text.now }
{
    has_both_ends(text) && text != "__init__"
}

/// Whether a name is one that a class would change ("Private name mangling").
pub(crate) fn is_private(text: &str) -> bool
    ensures { result ≡ is_private text.now }
{
    text.starts_with("__") && !text.ends_with("__")
}

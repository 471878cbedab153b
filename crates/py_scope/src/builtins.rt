//! The names that the rules treat apart.
ghost use Rattle.std.specs.Prelude.{◌≡◌, ◌||◌, map};
ghost use Rattle.scope_rules.specs.Builtins as spec;
ghost use Rattle.scope_rules.specs.NameLists.{text_of as text_at};
ghost use Rattle.type_terms.specs.BuiltinNames.{builtin_classes, builtin_functions, builtin_texts, has_name};
ghost use Rattle.type_terms.specs.Exceptions.{is_exception as is_exception_class};

use place_ids::{NameId, Names};
use type_terms::{
    BUILTIN_CLASSES, BUILTIN_FUNCTIONS, BUILTIN_TEXTS, TYPING_NAMES, exception_number,
};

/// The text of a name, or no bytes where the name is unknown.
pub(crate) fn text_of(names: &Names, id: NameId) -> &[u8]
    ensures { result.now ≡ text_at names.now id }
{
    match names.text(id) {
        Some(text) => text.as_bytes(),
        None => &[],
    }
}

fn is_among(text: &[u8], names: &[&str]) -> bool
    ensures { result ≡ has_name (map (λ name. name.now) names.now) text.now }
{
    for name in names {
        if text == name.as_bytes() {
            return true;
        }
    }
    false
}

pub(crate) fn is_builtin(text: &[u8]) -> bool
    ensures { result ≡ spec.is_builtin text.now }
{
    is_plain_builtin(text) || is_exception(text)
}

// Whether it is a builtin name that no exception has.
fn is_plain_builtin(text: &[u8]) -> bool
    ensures { result ≡ (has_name builtin_functions text.now || has_name builtin_classes text.now || has_name builtin_texts text.now) }
{
    is_among(text, &BUILTIN_FUNCTIONS)
        || is_among(text, &BUILTIN_CLASSES)
        || is_among(text, &BUILTIN_TEXTS)
}

pub(crate) fn is_typing(text: &[u8]) -> bool
    ensures { result ≡ spec.is_typing text.now }
{
    is_among(text, &TYPING_NAMES)
}

pub(crate) fn is_object(text: &[u8]) -> bool
    ensures { result ≡ spec.is_object text.now }
{
    text == b"object".as_slice()
}

pub(crate) fn is_init(text: &[u8]) -> bool
    ensures { result ≡ spec.is_init text.now }
{
    text == b"__init__".as_slice()
}

pub(crate) fn is_exception(text: &[u8]) -> bool
    ensures { result ≡ is_exception_class text.now }
{
    exception_number(text).is_some()
}

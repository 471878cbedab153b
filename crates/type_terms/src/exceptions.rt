//! The builtin exception classes.
ghost use Rattle.std.specs.Prelude.{◌≡◌, map, option_map, slice_get};
ghost use Rattle.std.specs.List.{position, position_or_len};
ghost use Rattle.std.specs.Str.{bytes_eq};
ghost use Rattle.type_terms.specs.Exceptions.{class_of, exception_chain, exception_names, first_chain, heads};

// Each class with the classes above it, from the nearest on.
static CHAINS: [&[&str]; 34] = [
    &["BaseException"],
    &["SystemExit", "BaseException"],
    &["KeyboardInterrupt", "BaseException"],
    &["GeneratorExit", "BaseException"],
    &["Exception", "BaseException"],
    &["ArithmeticError", "Exception", "BaseException"],
    &["AssertionError", "Exception", "BaseException"],
    &["AttributeError", "Exception", "BaseException"],
    &["EOFError", "Exception", "BaseException"],
    &["ImportError", "Exception", "BaseException"],
    &["LookupError", "Exception", "BaseException"],
    &["MemoryError", "Exception", "BaseException"],
    &["NameError", "Exception", "BaseException"],
    &["OSError", "Exception", "BaseException"],
    &["RuntimeError", "Exception", "BaseException"],
    &["StopIteration", "Exception", "BaseException"],
    &["TypeError", "Exception", "BaseException"],
    &["ValueError", "Exception", "BaseException"],
    &[
        "OverflowError",
        "ArithmeticError",
        "Exception",
        "BaseException",
    ],
    &[
        "ZeroDivisionError",
        "ArithmeticError",
        "Exception",
        "BaseException",
    ],
    &[
        "ModuleNotFoundError",
        "ImportError",
        "Exception",
        "BaseException",
    ],
    &["IndexError", "LookupError", "Exception", "BaseException"],
    &["KeyError", "LookupError", "Exception", "BaseException"],
    &[
        "UnboundLocalError",
        "NameError",
        "Exception",
        "BaseException",
    ],
    &["FileExistsError", "OSError", "Exception", "BaseException"],
    &["FileNotFoundError", "OSError", "Exception", "BaseException"],
    &["PermissionError", "OSError", "Exception", "BaseException"],
    &["TimeoutError", "OSError", "Exception", "BaseException"],
    &["ConnectionError", "OSError", "Exception", "BaseException"],
    &[
        "NotImplementedError",
        "RuntimeError",
        "Exception",
        "BaseException",
    ],
    &[
        "RecursionError",
        "RuntimeError",
        "Exception",
        "BaseException",
    ],
    &["UnicodeError", "ValueError", "Exception", "BaseException"],
    &[
        "UnicodeDecodeError",
        "UnicodeError",
        "ValueError",
        "Exception",
        "BaseException",
    ],
    &[
        "UnicodeEncodeError",
        "UnicodeError",
        "ValueError",
        "Exception",
        "BaseException",
    ],
];

/// A builtin exception class and those above it, from the nearest on. It is empty for any other name.
pub fn exception_chain(name: &str) -> &'static [&'static str]
    ensures { map (λ class. class.now) result.now ≡ exception_chain name.now }
{
    chain_of(name.as_bytes())
}

/// The chain of each builtin exception class. So a class is its place in this list, and the first of its chain is its name.
pub fn exception_chains() -> &'static [&'static [&'static str]]
    ensures { map (λ chain. map (λ class. class.now) chain.now) result.now ≡ map exception_chain exception_names }
{
    &CHAINS
}

/// The same, of a name's bytes.
pub(crate) fn chain_of(name: &[u8]) -> &'static [&'static str]
    ensures { map (λ class. class.now) result.now ≡ exception_chain name.now }
{
    find_chain(name, &CHAINS)
}

fn find_chain<'a>(name: &[u8], chains: &'a [&'a [&'a str]]) -> &'a [&'a str]
    ensures { map (λ class. class.now) result.now ≡ first_chain name.now (map (λ chain. map (λ class. class.now) chain.now) chains.now) }
{
    for chain in chains {
        if is_chain_of(name, chain) {
            return chain;
        }
    }
    &[]
}

fn is_chain_of(name: &[u8], chain: &[&str]) -> bool
    ensures { result ≡ heads name.now (map (λ class. class.now) chain.now) }
{
    match chain {
        [first, ..] => name == first.as_bytes(),
        [] => false,
    }
}

/// The place of a builtin exception class among them.
pub fn exception_number(name: &[u8]) -> Option<u32>
    ensures { result ≡ position (bytes_eq name.now) exception_names }
{
    let place = place_among(name, &CHAINS);
    if place < CHAINS.len() {
        Some(place as u32)
    } else {
        None
    }
}

// The first place of a class's chain, or the number of the chains.
fn place_among(name: &[u8], chains: &[&[&str]]) -> usize
    ensures { result ≡ position_or_len (heads name.now) (map (λ chain. map (λ class. class.now) chain.now) chains.now) }
{
    for (place, chain) in chains.iter().enumerate() {
        if is_chain_of(name, chain) {
            return place;
        }
    }
    chains.len()
}

/// The builtin exception class at a place among them.
pub fn exception_at(number: u32) -> Option<&'static str>
    ensures { option_map (λ class. class.now) result ≡ slice_get exception_names number }
{
    class_at(&CHAINS, number as usize)
}

fn class_at<'a>(chains: &'a [&'a [&'a str]], place: usize) -> Option<&'a str>
    ensures { option_map (λ class. class.now) result ≡ slice_get (map (λ chain. class_of (map (λ class. class.now) chain.now)) chains.now) place }
{
    match chains.get(place) {
        Some(chain) => Some(first_of(chain)),
        None => None,
    }
}

fn first_of<'a>(chain: &[&'a str]) -> &'a str
    ensures { result.now ≡ class_of (map (λ class. class.now) chain.now) }
{
    match chain {
        [first, ..] => first,
        [] => "",
    }
}

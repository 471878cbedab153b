//! The words that the program is called with.
ghost use Rattle.std.specs.Prelude.{◌↔◌, IsTrue, MatchOption};
ghost use Rattle.py_infer.specs.Words.{Accepts, IsFileName, IsUnaccepted, texts_of};

/// The file that the words name, where they are `infer FILE`.
pub fn accepted_file(words: &[String]) -> Option<&str>
    ensures { MatchOption result (IsUnaccepted (texts_of words.now)) (λ file. Accepts (texts_of words.now) file.now) }
{
    match words {
        [command, file] if command.as_str() == "infer" && is_file_name(file.as_bytes()) => {
            Some(file.as_str())
        }
        _ => None,
    }
}

// A file's name isn't empty. Where it has more than one byte, it doesn't begin with `-`.
fn is_file_name(name: &[u8]) -> bool
    ensures { IsTrue result ↔ IsFileName name.now }
{
    match name {
        [] => false,
        [_] => true,
        [first, ..] => *first != b'-',
    }
}

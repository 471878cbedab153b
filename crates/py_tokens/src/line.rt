//! The line ends of a text.
ghost use Rattle.std.specs.Prelude.{◌≡◌, ◌≤◌, length};
ghost use Rattle.py_tokens.specs.Literals.{begins_line_end, ends_line, line_ends};

// Whether a text begins with a line end.
fn begins_line_end(bytes: &[u8]) -> bool
    ensures { result ≡ begins_line_end bytes.now }
{
    bytes.starts_with(b"\n") || bytes.starts_with(b"\r")
}

// Whether a text's first byte is the last of a line end.
fn ends_line(bytes: &[u8]) -> bool
    ensures { result ≡ ends_line bytes.now }
{
    begins_line_end(bytes) && !bytes.starts_with(b"\r\n")
}

/// How many line ends a text has: LF, CR LF and a lone CR are one each.
pub(crate) fn line_ends(bytes: &[u8]) -> usize
    ensures exact { result ≡ line_ends bytes.now }
    ensures within { result ≤ length bytes.now }
{
    let mut count = 0;
    for at in 0..bytes.len() {
        if ends_line(&bytes[at..]) {
            count += 1;
        }
    }
    count
}

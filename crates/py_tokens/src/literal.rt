//! Text and bytes literals: where one ends, and whether it is empty.
ghost use Rattle.std.specs.Prelude.{◌≡◌, ◌⊎◌, slice_index};
ghost use Rattle.py_tokens.specs.Literals.{is_foreign, is_line_end, pair_len, quotes, literal_of, Lies};
ghost use Rattle.py_tokens.specs.Pieces.{pair_of, piece_of};

/// What a literal's prefix says.
#[derive(Clone, Copy, Debug, PartialEq, Eq)]
pub(crate) struct Prefix {
    pub(crate) raw: bool,
    pub(crate) bytes: bool,
}

/// How the literal at the front of a text ends.
#[derive(Clone, Copy, Debug, PartialEq, Eq)]
pub(crate) enum Literal {
    /// Past its closing quotes, and whether its content is empty.
    Closed { len: usize, empty: bool },
    /// At a line end or the end of the text, which it meets first.
    Open { len: usize },
    /// At a character that a bytes literal can't hold, which begins there.
    Bad { at: usize },
}

// What a literal's content begins with.
#[derive(Clone, Copy)]
enum Piece {
    Close,
    // Bytes, and whether they leave the content empty.
    Passed { len: usize, empty: bool },
    // The end of the text, or a line end that ends the literal.
    End,
    // A character that a bytes literal can't hold, after these many bytes.
    Bad { after: usize },
}

fn is_line_end(byte: u8) -> bool
    ensures { result ≡ is_line_end byte }
{
    byte == b'\n' || byte == b'\r'
}

// Whether a byte is of a character that the literal can't hold.
fn is_foreign(byte: u8, prefix: Prefix) -> bool
    ensures { result ≡ is_foreign prefix byte }
{
    byte >= 0x80 && prefix.bytes
}

// How many bytes the character after a backslash has.
fn pair_len(after: &[u8]) -> usize
    ensures { result ≡ pair_len after.now }
{
    if after.starts_with(b"\r\n") { 2 } else { 1 }
}

// A pair, of which these bytes stand after the backslash.
fn pair(after: &[u8], prefix: Prefix) -> Piece
    ensures { result ≡ pair_of after.now prefix }
{
    match after {
        [] => Piece::Passed {
            len: 1,
            empty: false,
        },
        [byte, ..] if is_line_end(*byte) => Piece::Passed {
            len: 1 + pair_len(after),
            empty: !prefix.raw,
        },
        [byte, ..] if is_foreign(*byte, prefix) => Piece::Bad { after: 1 },
        _ => Piece::Passed {
            len: 2,
            empty: false,
        },
    }
}

fn first_piece(rest: &[u8], close: &[u8], prefix: Prefix) -> Piece
    ensures { result ≡ piece_of rest.now close.now prefix }
{
    match rest {
        [] => Piece::End,
        _ if rest.starts_with(close) => Piece::Close,
        [b'\\', after @ ..] => pair(after, prefix),
        [byte, ..] if close.len() == 1 && is_line_end(*byte) => Piece::End,
        [byte, ..] if is_foreign(*byte, prefix) => Piece::Bad { after: 0 },
        _ => Piece::Passed {
            len: 1,
            empty: false,
        },
    }
}

// How many quotes the literal has on each side.
fn quotes(bytes: &[u8]) -> usize
    ensures { result ≡ quotes bytes.now }
{
    match bytes {
        [quote, rest @ ..] if rest.starts_with(&[*quote, *quote]) => 3,
        _ => 1,
    }
}

/// How the literal ends that begins with the first quote of a text (language reference, "String and Bytes literals").
pub(crate) fn first_literal(bytes: &[u8], prefix: Prefix) -> Literal
    requires { (slice_index bytes.now 0 ≡ 34) ⊎ (slice_index bytes.now 0 ≡ 39) }
    ensures exact { result ≡ literal_of bytes.now prefix }
    ensures within { Lies bytes.now result }
{
    let quotes = quotes(bytes);
    let close = &bytes[..quotes];
    let mut at = quotes;
    let mut empty = true;
    loop {
        match first_piece(&bytes[at..], close, prefix) {
            Piece::Close => {
                return Literal::Closed {
                    len: at + quotes,
                    empty,
                };
            }
            Piece::Passed { len, empty: still } => {
                at += len;
                empty &= still;
            }
            Piece::End => return Literal::Open { len: at },
            Piece::Bad { after } => return Literal::Bad { at: at + after },
        }
    }
}

//! What a list of tokens gives.
use super::readings::read;
use crate::{Op, Token, TokenKind};
use place_ids::{Id, NameId, Span};
use std::test::Fail;

const ASSIGN: TokenKind = TokenKind::Op(Op::Assign);

fn name(number: u32) -> TokenKind {
    TokenKind::Name(NameId::new(number))
}

fn token(kind: TokenKind, start: u32, end: u32, line: u32) -> Token {
    Token {
        kind,
        span: Span { start, end, line },
    }
}

#[test]
fn two_lines_have_their_tokens(rt: HostRuntime) -> Result<(), Fail> {
    let found = read(rt.alloc(), "x = 1\ny = x\n")?;
    let expected = [
        token(name(0), 0, 1, 1),
        token(ASSIGN, 2, 3, 1),
        token(TokenKind::Int(1), 4, 5, 1),
        token(TokenKind::Newline, 5, 6, 1),
        token(name(1), 6, 7, 2),
        token(ASSIGN, 8, 9, 2),
        token(name(0), 10, 11, 2),
        token(TokenKind::Newline, 11, 12, 2),
        token(TokenKind::End, 12, 12, 3),
    ];
    for (place, token) in expected.iter().enumerate() {
        assert_eq!(rt; found.get(place).copied(), Some(*token), "at {place}");
    }
    let names = [0, 1, 2].map(|number| found.names().text(NameId::new(number)));
    assert_eq!(rt; names, [Some("x"), Some("y"), None]);
    assert_eq!(rt; (found.len(), found.get(9).copied()), (9, None));
    Ok(())
}

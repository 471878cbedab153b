//! Tokens, as the language reference names them ("Lexical analysis").
use place_ids::{NameId, Span};

/// A token, and where it stands in its text.
#[derive(Clone, Copy, Debug, PartialEq, Eq)]
pub struct Token {
    pub kind: TokenKind,
    pub span: Span,
}

/// What a token is.
#[derive(Clone, Copy, Debug, PartialEq, Eq)]
pub enum TokenKind {
    /// An identifier, by its place among the module's names ("Identifiers and keywords").
    Name(NameId),
    Keyword(Keyword),
    /// An integer, by its value ("Integer literals").
    Int(u128),
    /// A floating-point literal ("Floating point literals").
    Float,
    /// An imaginary literal ("Imaginary literals").
    Imaginary,
    /// A text literal, and whether its content is empty ("String and Bytes literals").
    Str(bool),
    /// A bytes literal, and whether its content is empty.
    Bytes(bool),
    Op(Op),
    /// The end of a logical line ("Line structure"). Its span is empty where the text ends without a line end.
    Newline,
    /// The start of a block, with an empty span at the end of its first line's leading space ("Indentation").
    Indent,
    /// The end of a block, with an empty span at the end of the next line's leading space, or of the text.
    Dedent,
    /// The end of the text, with an empty span.
    End,
}

/// The keywords ("Keywords"): each variant is `Kw` and the keyword, with a capital first letter.
#[derive(Clone, Copy, Debug, PartialEq, Eq)]
pub enum Keyword {
    KwFalse,
    KwNone,
    KwTrue,
    KwAnd,
    KwAs,
    KwAssert,
    KwAsync,
    KwAwait,
    KwBreak,
    KwClass,
    KwContinue,
    KwDef,
    KwDel,
    KwElif,
    KwElse,
    KwExcept,
    KwFinally,
    KwFor,
    KwFrom,
    KwGlobal,
    KwIf,
    KwImport,
    KwIn,
    KwIs,
    KwLambda,
    KwNonlocal,
    KwNot,
    KwOr,
    KwPass,
    KwRaise,
    KwReturn,
    KwTry,
    KwWhile,
    KwWith,
    KwYield,
}

/// Operators and delimiters ("Operators", "Delimiters").
#[derive(Clone, Copy, Debug, PartialEq, Eq)]
pub enum Op {
    /// `+`
    Plus,
    /// `-`
    Minus,
    /// `*`
    Star,
    /// `**`
    DoubleStar,
    /// `/`
    Slash,
    /// `//`
    DoubleSlash,
    /// `%`
    Percent,
    /// `@`
    At,
    /// `<<`
    ShiftLeft,
    /// `>>`
    ShiftRight,
    /// `&`
    Amper,
    /// `|`
    Bar,
    /// `^`
    Caret,
    /// `~`
    Tilde,
    /// `<`
    Less,
    /// `>`
    Greater,
    /// `<=`
    LessEq,
    /// `>=`
    GreaterEq,
    /// `==`
    EqEq,
    /// `!=`
    NotEq,
    /// `(`
    LeftParen,
    /// `)`
    RightParen,
    /// `[`
    LeftSquare,
    /// `]`
    RightSquare,
    /// `{`
    LeftBrace,
    /// `}`
    RightBrace,
    /// `,`
    Comma,
    /// `:`
    Colon,
    /// `.`
    Dot,
    /// `;`
    Semi,
    /// `=`
    Assign,
    /// `->`
    Arrow,
    /// `:=`
    Walrus,
    /// `...`
    Ellipsis,
    /// `+=`
    PlusAssign,
    /// `-=`
    MinusAssign,
    /// `*=`
    StarAssign,
    /// `/=`
    SlashAssign,
    /// `//=`
    DoubleSlashAssign,
    /// `%=`
    PercentAssign,
    /// `@=`
    AtAssign,
    /// `&=`
    AmperAssign,
    /// `|=`
    BarAssign,
    /// `^=`
    CaretAssign,
    /// `>>=`
    ShiftRightAssign,
    /// `<<=`
    ShiftLeftAssign,
    /// `**=`
    DoubleStarAssign,
}

use crate::{Name, Place};

/// A keyword. No keyword is a name.
#[derive(Clone, Copy, PartialEq, Eq)]
pub enum Key {
    Const,
    Global,
    Protocol,
    Role,
    From,
    To,
    Foreach,
    Rec,
    Continue,
    Choice,
    At,
    Or,
    Compute,
    Barrier,
    Broadcast,
    Reduce,
    Allreduce,
    With,
    Max,
    Min,
    Sum,
    Int32,
    Uint32,
    Do,
}

/// A symbol of the language.
#[derive(Clone, Copy, PartialEq, Eq)]
pub enum Mark {
    Dots,
    Equals,
    Semicolon,
    LeftParen,
    RightParen,
    LeftBracket,
    RightBracket,
    LeftBrace,
    RightBrace,
    Comma,
    Colon,
    Plus,
    Minus,
}

/// What a token is.
#[derive(Clone, Copy, PartialEq, Eq)]
pub enum TokenKind {
    /// A name: a word that is no keyword.
    Word(Name),
    Key(Key),
    /// At most 2,000,000,000.
    Number(u32),
    Mark(Mark),
}

/// A token where it begins.
#[derive(Clone, Copy)]
pub struct Token {
    pub kind: TokenKind,
    pub place: Place,
}

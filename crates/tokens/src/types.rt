// What a source is made of.

#[derive(Clone, Copy, Debug, PartialEq, Eq)]
pub enum Keyword {
    Mutable,
    Int,
    Ref,
    Q,
    If,
    Else,
    While,
    Free,
    Print,
    Return,
    Nil,
}

#[derive(Clone, Copy, Debug, PartialEq, Eq)]
pub enum Mark {
    LeftParen,
    RightParen,
    LeftBrace,
    RightBrace,
    Comma,
    Semicolon,
    Assign,
    Plus,
    Minus,
    Star,
    Dot,
    Less,
    Greater,
    LessEqual,
    GreaterEqual,
    EqualEqual,
    NotEqual,
    Not,
    AndAnd,
    OrOr,
}

// Why no token could be taken.
#[derive(Clone, Copy, Debug, PartialEq, Eq)]
pub enum Trouble {
    NoToken,
    OpenComment,
    LargeConstant,
}

#[derive(Clone, Copy)]
pub enum Token<'a> {
    Name(&'a [u8]),
    Constant(u64),
    Keyword(Keyword),
    Mark(Mark),
    End,
    Trouble(Trouble),
}

// A token and the offset of its first byte.
#[derive(Clone, Copy)]
pub struct Placed<'a> {
    pub token: Token<'a>,
    pub at: usize,
}

// What stands at a place of the source: so many bytes to skip, a token of so many bytes, or the end or a trouble.
#[derive(Clone, Copy)]
pub(crate) enum Ahead<'a> {
    Gap(usize),
    Found(usize, Token<'a>),
    Stop(Token<'a>),
}

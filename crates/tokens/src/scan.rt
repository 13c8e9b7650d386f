// Taking tokens one by one.
ghost use Rattle.std.specs.Prelude.{◌≡◌, ◌↔◌, IsTrue};
ghost use Rattle.tokens.specs.Spelling.{mark as sign, symbol_of};
ghost use Rattle.tokens.specs.Scan.{front, final};
ghost use Rattle.tokens.specs.State.{front_of, rest, Advances, Took};

use crate::begun::Begun;
use crate::lexer::Lexer;
use crate::types::{Ahead, Mark, Placed, Token};
use byte_class::class_at;

impl Token<'_> {
    // Nothing comes after the end of the source or a trouble.
    pub fn is_last(self) -> bool
        ensures { result ≡ final (symbol_of self.entry) }
    {
        matches!(self, Token::End | Token::Trouble(_))
    }

    pub fn is_mark(self, mark: Mark) -> bool
        ensures { IsTrue result ↔ (symbol_of self.entry ≡ sign mark) }
    {
        matches!(self, Token::Mark(found) if found == mark)
    }
}

impl<'a> Lexer<'a> {
    pub fn new(source: &'a [u8]) -> Lexer<'a>
        ensures source { result.source.now ≡ source.now }
        ensures place { result.pos ≡ 0 }
    {
        Lexer { source, pos: 0 }
    }

    fn rest(&self) -> &'a [u8]
        ensures { result.now ≡ rest self.now }
    {
        &self.source[self.pos..]
    }

    fn ahead(&self) -> Ahead<'a>
        ensures value { front_of result ≡ front (rest self.now) }
        ensures within { Advances self.now result }
    {
        match Begun::of(self.rest()) {
            Some(begun) => begun.front_by(class_at(begun.first)),
            None => Ahead::Stop(Token::End),
        }
    }

    // The next token. At the end of the source and at a trouble the lexer stays, and answers the same again.
    pub fn next_token(&mut self) -> Placed<'a>
        ensures { Took self.old result self.new }
    {
        loop {
            let at = self.pos;
            match self.ahead() {
                Ahead::Gap(n) => self.pos += n,
                Ahead::Found(n, token) => {
                    self.pos += n;
                    return Placed { token, at };
                }
                Ahead::Stop(token) => return Placed { token, at },
            }
        }
    }
}

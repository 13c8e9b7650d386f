// What stands first in a text.
ghost use Rattle.std.specs.Prelude.{◌≡◌, ℕ, Bool, cond, [], ◌∷◌, MatchOption};
ghost use Rattle.std.specs.List.{take_while};
ghost use Rattle.tokens.specs.declared.types.Trouble.TheVariants.{NoToken};
ghost use Rattle.tokens.specs.Spelling.{mark, trouble};
ghost use Rattle.tokens.specs.Scan.{Answers, found, stop, starts, word, number, comment, one, front_by};
ghost use Rattle.tokens.specs.State.{front_of};

use crate::begun::Begun;
use crate::types::{Ahead, Mark, Token, Trouble};
use crate::words::{body_len, is_digit, is_word_byte, keyword_of, value_of};
use byte_class::Class;

fn word(text: &[u8]) -> Ahead<'_>
    ensures { front_of result ≡ word text.now }
{
    match keyword_of(text) {
        Some(keyword) => Ahead::Found(text.len(), Token::Keyword(keyword)),
        None => Ahead::Found(text.len(), Token::Name(text)),
    }
}

fn number(text: &[u8]) -> Ahead<'_>
    ensures { front_of result ≡ number text.now }
{
    match value_of(text) {
        Some(n) => Ahead::Found(text.len(), Token::Constant(n)),
        None => Ahead::Stop(Token::Trouble(Trouble::LargeConstant)),
    }
}

fn one<'a>(mark: Mark) -> Ahead<'a>
    ensures { front_of result ≡ one mark }
{
    Ahead::Found(1, Token::Mark(mark))
}

fn no_token<'a>() -> Ahead<'a>
    ensures { front_of result ≡ stop (trouble NoToken) }
{
    Ahead::Stop(Token::Trouble(Trouble::NoToken))
}

impl<'a> Begun<'a> {
    pub(crate) fn of(text: &'a [u8]) -> Option<Begun<'a>>
        ensures { MatchOption result (text.now ≡ []) (λ begun. begun.text.now ≡ text.now) }
    {
        match text {
            [] => None,
            [first, after @ ..] => Some(Begun {
                text,
                first: *first,
                after,
            }),
        }
    }

    fn next_is(&self, b: u8) -> bool
        ensures { result ≡ starts b self.now.after.now }
    {
        self.after.first() == Some(&b)
    }

    // The first byte and those after it that pass the test.
    fn run<F: Fn(u8) -> bool>(&self, test: F) -> &'a [u8]
        requires { F.IsAlwaysCallable test }
        ensures { (p : ℕ → Bool) → Answers (F.post test) p → result.now ≡ self.now.first ∷ take_while p self.now.after.now }
    {
        let more = self.after.iter().take_while(|b| test(**b)).count();
        &self.text[..1 + more]
    }

    fn comment(&self) -> Ahead<'a>
        ensures { front_of result ≡ comment self.now.after.now }
    {
        if !self.next_is(b'*') {
            return no_token();
        }
        match body_len(&self.after[1..]) {
            Some(n) => Ahead::Gap(n + 4),
            None => Ahead::Stop(Token::Trouble(Trouble::OpenComment)),
        }
    }

    // A mark of two bytes where the second stands there, else what stands here alone.
    fn two_or(&self, second: u8, long: Mark, alone: Ahead<'a>) -> Ahead<'a>
        ensures { front_of result ≡ cond (starts second self.now.after.now) (found 2 (mark long)) (front_of alone.entry) }
    {
        if self.next_is(second) {
            Ahead::Found(2, Token::Mark(long))
        } else {
            alone
        }
    }

    // What begins with a first byte of the class. No table of functions: each class has its own arguments.
    pub(crate) fn front_by(&self, class: Class) -> Ahead<'a>
        ensures { front_of result ≡ front_by class self.now.first self.now.after.now }
    {
        match class {
            Class::Letter => word(self.run(is_word_byte)),
            Class::Digit => number(self.run(is_digit)),
            Class::Blank => Ahead::Gap(1),
            Class::LeftParen => one(Mark::LeftParen),
            Class::RightParen => one(Mark::RightParen),
            Class::LeftBrace => one(Mark::LeftBrace),
            Class::RightBrace => one(Mark::RightBrace),
            Class::Comma => one(Mark::Comma),
            Class::Semicolon => one(Mark::Semicolon),
            Class::Equals => self.two_or(b'=', Mark::EqualEqual, one(Mark::Assign)),
            Class::Plus => one(Mark::Plus),
            Class::Minus => one(Mark::Minus),
            Class::Star => one(Mark::Star),
            Class::Dot => one(Mark::Dot),
            Class::Less => self.two_or(b'=', Mark::LessEqual, one(Mark::Less)),
            Class::Greater => self.two_or(b'=', Mark::GreaterEqual, one(Mark::Greater)),
            Class::Bang => self.two_or(b'=', Mark::NotEqual, one(Mark::Not)),
            Class::Ampersand => self.two_or(b'&', Mark::AndAnd, no_token()),
            Class::Pipe => self.two_or(b'|', Mark::OrOr, no_token()),
            Class::Slash => self.comment(),
            Class::Other => no_token(),
        }
    }
}

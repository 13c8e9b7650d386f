// Going through the tokens one by one.
ghost use Rattle.std.specs.Prelude.{◌≡◌, ◌+◌, ◌<◌, false};
ghost use Rattle.tokens.specs.Spelling.{symbol_of};
ghost use Rattle.tokens.specs.Scan.{lexed, final};
ghost use Rattle.grammar.specs.Refusals.{tokens};
ghost use Rattle.reader.specs.Cursor.{left, after};

use crate::cursor::Cursor;
use tokens::Lexer;

impl<'a> Cursor<'a> {
    pub(crate) fn new(source: &'a [u8]) -> Cursor<'a>
        ensures { left result ≡ tokens (lexed 0 source.now) }
    {
        let mut lexer = Lexer::new(source);
        let here = lexer.next_token();
        Cursor {
            lexer,
            here,
            taken: 0,
        }
    }

    // Passes the token at hand.
    pub(crate) fn advance(&mut self)
        requires token { final (symbol_of self.old.here.token) ≡ false }
        requires counted { self.old.taken < 2048 }
        ensures rest { left self.new ≡ after (left self.old) }
        ensures taken { self.new.taken ≡ self.old.taken + 1 }
    {
        self.here = self.lexer.next_token();
        self.taken += 1;
    }
}

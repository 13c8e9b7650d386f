// Filling a list with the items of a source.
ghost use Rattle.std.specs.Prelude.{◌≡◌, [], map, take, IfOk};
ghost use Rattle.tokens.specs.Spelling.{item_of};
ghost use Rattle.tokens.specs.State.{to_come, Lexed};

use crate::lexer::Lexer;
use crate::list::TokenList;
use crate::types::Placed;
use std::alloc::{AllocError, Global};

// A script has at most 2,048 tokens: one more is kept, so that the first one too many can be named.
const MOST_ITEMS: usize = 2049;

impl<'a> TokenList<'a> {
    pub fn new(heap: Global) -> Result<TokenList<'a>, AllocError>
        ensures { IfOk result (λ l. l.items.items ≡ []) }
    {
        let items = Vec::with_capacity(heap, MOST_ITEMS)?;
        Ok(TokenList { items })
    }

    fn take_all(&mut self, mut lexer: Lexer<'a>)
        requires { self.old.items.items ≡ [] }
        ensures { map item_of self.new.items.items ≡ take 2049 (to_come lexer.entry) }
    {
        while self.items.len() < MOST_ITEMS {
            let placed = lexer.next_token();
            self.items.push_reserved(placed);
            if placed.token.is_last() {
                return;
            }
        }
    }

    // Fills the list with the items of the source, in place of those that it had.
    pub fn fill(&mut self, source: &'a [u8])
        ensures { Lexed source.now self.new.items.items }
    {
        self.items.clear();
        self.take_all(Lexer::new(source));
    }

    pub fn items(&self) -> &[Placed<'a>]
        ensures { result.now ≡ self.now.items.items }
    {
        self.items.as_slice()
    }
}

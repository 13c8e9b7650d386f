// Why a script is refused, and the line that says so.
ghost use Rattle.std.specs.Prelude.{◌≡◌, IfOk, Some, string_bytes};
ghost use Rattle.lexemes.specs.Listing.{reason_number, reason_words, reason_line};

use refusal_line::refusal_line;
use std::alloc::{AllocError, Global};
use tokens::Trouble;

// Three of the reader's reasons: this program does not stand on the reader. Two numbers stand there too, and two
// sentences in `outline`.
#[derive(Clone, Copy)]
pub enum Reason {
    LongSource,
    ManyTokens,
    Trouble(Trouble),
}

impl Reason {
    // The number that the line shows. No discriminant, since a trouble has a number of its own.
    fn number(self) -> u8
        ensures { result ≡ reason_number self }
    {
        match self {
            Reason::LongSource => 1,
            Reason::ManyTokens => 6,
            Reason::Trouble(trouble) => trouble.number(),
        }
    }

    // Words and no `Display`, as `refusal_line` takes them.
    fn words(self) -> &'static str
        ensures { result.now ≡ reason_words self }
    {
        match self {
            Reason::LongSource => "a script has at most 8,192 bytes",
            Reason::ManyTokens => "this is token 2,049, and a script has at most 2,048",
            Reason::Trouble(trouble) => trouble.words(),
        }
    }

    // The line that refuses the source at an offset.
    pub fn line(self, heap: Global, source: &[u8], at: usize) -> Result<String, AllocError>
        ensures { IfOk result (λ s. string_bytes s ≡ reason_line source.now self at) }
    {
        refusal_line(heap, source, self.number(), at, self.words())
    }
}

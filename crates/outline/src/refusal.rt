// Why a script is not read.
ghost use Rattle.std.specs.Prelude.{◌≡◌, IfOk, string_bytes};
ghost use Rattle.outline.specs.Refusing.{reason_words, line_of_refusal};

use reader::{ReadRefusal, Reason};
use refusal_line::refusal_line;
use std::alloc::{AllocError, Global};

// Words and no `Display`, as `refusal_line` takes them. Two are those of `lexemes`, which does not stand on the reader.
fn words(reason: Reason) -> &'static str
    ensures { result.now ≡ reason_words reason }
{
    match reason {
        Reason::TooLong => "a script has at most 8,192 bytes",
        Reason::Trouble(trouble) => trouble.words(),
        Reason::Wrong => "no program goes on like this",
        Reason::TooDeep =>
            "this stands inside more than 64 parentheses, braces, prefixes and bodies",
        Reason::TooMany => "this is token 2,049, and a script has at most 2,048",
    }
}

// The line that refuses the source.
pub fn refusal_of(heap: Global, source: &[u8], refusal: ReadRefusal) -> Result<String, AllocError>
    ensures { IfOk result (λ s. string_bytes s ≡ line_of_refusal source.now refusal) }
{
    refusal_line(
        heap,
        source,
        refusal.number(),
        refusal.at,
        words(refusal.reason),
    )
}

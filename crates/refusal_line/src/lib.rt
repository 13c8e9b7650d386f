// The line that says where a source is refused and why.
#![tactic(auto)]

ghost use Rattle.std.specs.Prelude.{◌≡◌, IfOk, string_bytes};
ghost use Rattle.refusal_line.specs.Line.{refusal_line};

use position::{Position, position_of};
use std::alloc::{AllocError, Global};

// The line for a source that is refused by the number at the offset. Words and no `Display`: tried, and the format's proof did not close.
pub fn refusal_line(
    heap: Global,
    source: &[u8],
    number: u8,
    at: usize,
    words: &str,
) -> Result<String, AllocError>
    ensures { IfOk result (λ s. string_bytes s ≡ refusal_line source.now number at words.now) }
{
    let Position { line, column } = position_of(source, at);
    format!(in heap; "{line}:{column}: refused with {number} at offset {at}: {words}\n")
}

// The token at hand, and the lexer that has the tokens after it.
ghost use Rattle.std.specs.Prelude.{◌≤◌};

use tokens::{Lexer, Placed};

#[derive(Clone, Copy)]
pub(crate) struct Cursor<'a> {
    pub(crate) lexer: Lexer<'a>,
    pub(crate) here: Placed<'a>,
    pub(crate) taken: usize,
    ghost few: { taken ≤ 2048 },
}

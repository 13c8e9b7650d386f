// A source and the place up to which its tokens were taken.
ghost use Rattle.std.specs.Prelude.{◌≤◌, length};

#[derive(Clone, Copy)]
pub struct Lexer<'a> {
    pub(crate) source: &'a [u8],
    pub(crate) pos: usize,
    ghost within: { pos ≤ length source.now },
}

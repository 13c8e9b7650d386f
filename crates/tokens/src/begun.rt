// A text that is not empty: what stands first in it begins with its first byte.
ghost use Rattle.std.specs.Prelude.{◌≡◌, ◌∷◌};

#[derive(Clone, Copy)]
pub(crate) struct Begun<'a> {
    pub(crate) text: &'a [u8],
    pub(crate) first: u8,
    pub(crate) after: &'a [u8],
    ghost split: { text.now ≡ first ∷ after.now },
}

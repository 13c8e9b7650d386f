// The items of a source, in memory that is reserved once.
ghost use Rattle.std.specs.Prelude.{◌≤◌, vec_capacity};

use crate::types::Placed;

#[derive(Drop)]
pub struct TokenList<'a> {
    pub(crate) items: Vec<Placed<'a>>,
    ghost room: { 2049 ≤ vec_capacity items },
}

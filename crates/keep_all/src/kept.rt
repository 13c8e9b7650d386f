// The cells of a heap that frees nothing, and what always holds of them.
ghost use Rattle.keep_all.specs.Cells.{places_in, NamesTaken};

use crate::cell::Cell;
use heap::Places;

pub mod calls;

#[derive(Drop)]
pub struct KeepAllHeap {
    places: Places<Cell>,
    ghost closed: { NamesTaken (places_in places) },
}

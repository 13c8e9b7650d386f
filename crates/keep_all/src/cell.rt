// What stands at a place.
ghost use Rattle.std.specs.Prelude.{◌≡◌};
ghost use Rattle.heap.specs.Model.{is_taken, holds_of, with_holds, slot_of, with_slot};
ghost use Rattle.keep_all.specs.Cells.{room_of};

use heap::{Side, Value};

// No `Option`: hosts call `Cell::new`, and an `Option` could have no function of ours.
#[derive(Clone, Copy)]
pub enum Cell {
    Free,
    Taken {
        left: Value,
        right: Value,
        holds: u16,
    },
}

impl Cell {
    // A free cell, to build the vector from that a heap is given. Each heap has a cell of its own, and so a `new`.
    pub fn new() -> Cell
        ensures { result ≡ Cell.Free }
    {
        Self::Free
    }

    // A test, and no `Option` of the parts: that takes a struct of the three beside this enum, and back at each write.
    pub(crate) fn is_taken(self) -> bool
        ensures { result ≡ is_taken (room_of self) }
    {
        matches!(self, Cell::Taken { .. })
    }

    pub(crate) fn holds(self) -> u16
        ensures { result ≡ holds_of (room_of self) }
    {
        match self {
            Cell::Free => 0,
            Cell::Taken { holds, .. } => holds,
        }
    }

    pub(crate) fn with_holds(self, holds: u16) -> Cell
        ensures { room_of result ≡ with_holds (room_of self) holds }
    {
        match self {
            Cell::Free => Cell::Free,
            Cell::Taken { left, right, .. } => Cell::Taken { left, right, holds },
        }
    }

    pub(crate) fn slot(self, side: Side) -> Value
        ensures { result ≡ slot_of (room_of self) side }
    {
        match self {
            Cell::Free => Value::Nil,
            Cell::Taken { left, right, .. } => side.of(left, right),
        }
    }

    // The match is that of counting's `set_slot`, which writes a field in place: what a function of both would answer
    // each would have to take apart.
    pub(crate) fn with_slot(self, side: Side, value: Value) -> Cell
        ensures { room_of result ≡ with_slot (room_of self) side value }
    {
        match (self, side) {
            (Cell::Free, _) => Cell::Free,
            (Cell::Taken { right, holds, .. }, Side::Left) => Cell::Taken {
                left: value,
                right,
                holds,
            },
            (Cell::Taken { left, holds, .. }, Side::Right) => Cell::Taken {
                left,
                right: value,
                holds,
            },
        }
    }
}

// What stands at a place.
ghost use Rattle.std.specs.Prelude.{◌≡◌};

use heap::Value;

// A taken place: its two slots, how many holds it has, and how many slots name it.
#[derive(Clone, Copy)]
pub struct Pair {
    pub left: Value,
    pub right: Value,
    pub holds: u16,
    pub named: u16,
}

// The free list and the worklist are threaded through the cells by places' numbers, since nothing allocates after `new`.
// A link is a number and no `Option` of an address: a list ends at a place whose cell is not in it, and the first links
// would be `Address { at: 0 }`.
#[derive(Clone, Copy)]
pub enum Cell {
    // The next place of the free list, which ends where that is not free.
    Free {
        next: u16,
    },
    Taken(Pair),
    // Still taken, with neither a hold nor a slot that names it, and the next place of the worklist, which ends where
    // that is not dying.
    Dying {
        left: Value,
        right: Value,
        next: u16,
    },
}

impl Cell {
    // `new` in each heap, and no `Default` beside it: hosts call `new`, and no derive gives a variant with a field.
    pub fn new() -> Cell
        ensures { result ≡ Cell.Free 0 }
    {
        Cell::Free { next: 0 }
    }
}

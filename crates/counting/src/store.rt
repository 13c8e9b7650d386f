// The cells of a heap with its list of free places, and the steps of its calls on them.
ghost use Rattle.std.specs.Prelude.{◌≡◌, ◌-◌, ◌<◌, min, ◌&&◌, [], map, drop, None, vec_len, slice_index_or, slice_set};
ghost use Rattle.heap.specs.Model.{all_free, held_at, taken_at, names_only, taken, written};
ghost use Rattle.heap.specs.Places.{SameSpare};
ghost use Rattle.counting.specs.declared.cell.Cell.TheVariants.{Taken};
ghost use Rattle.counting.specs.Cells.{places_in, spare_in, cell_at, rooms, next_free, Sound};
ghost use Rattle.counting.specs.Work.{Working, Settled, MayPut, MayTake};

use crate::cell::{Cell, Pair};
use crate::names::{at, lower, raise, set_slot};
use heap::{Address, Places, Side, Value};

// No invariant of its own: the steps of a call go through cells that are not sound, and `CountingHeap` has it between
// calls. `SameSpare`, in each step: a fact about two states, which no field or model can hold.
#[derive(Drop)]
pub(crate) struct Store {
    pub(crate) places: Places<Cell>,
    // The first place of the free list.
    pub(crate) free: u16,
}

impl Store {
    // All places free.
    pub(crate) fn fresh(cells: Vec<Cell>) -> Store
        ensures sound { Sound (places_in result) result.free }
        ensures rooms { rooms (places_in result) ≡ all_free (min 1024 (vec_len cells)) }
        ensures spare { spare_in result ≡ drop 1024 cells.items }
        ensures long { vec_len result.places.cells ≡ vec_len cells }
    {
        let mut places = Places::new(cells);
        let mut free = 0;
        // Each place is linked to the one before it, so the loop is over numbers.
        for at in 0..places.len() {
            places.set(Address { at }, Cell::Free { next: free });
            free = at;
        }
        Store { places, free }
    }

    // The place after the first free one in the free list, if there is a free one.
    pub(crate) fn next_free(&self) -> Option<u16>
        ensures { result ≡ slice_index_or (map next_free (places_in self.now)) self.now.free None }
    {
        let Cell::Free { next } = self.places.get(Address { at: self.free })? else {
            return None;
        };
        Some(next)
    }

    fn is_held(&self, value: Value) -> bool
        ensures { result ≡ names_only (held_at (rooms (places_in self.now))) value }
    {
        value.address().is_none_or(
            |place| matches!(at(&self.places, place), Cell::Taken(pair) if pair.holds > 0),
        )
    }

    pub(crate) fn both_held(&self, left: Value, right: Value) -> bool
        ensures { result ≡ (names_only (held_at (rooms (places_in self.now))) left && names_only (held_at (rooms (places_in self.now))) right) }
    {
        self.is_held(left) && self.is_held(right)
    }

    pub(crate) fn is_taken(&self, value: Value) -> bool
        ensures { result ≡ names_only (taken_at (rooms (places_in self.now))) value }
    {
        value.address().is_none_or(|place| !matches!(at(&self.places, place), Cell::Free { .. }))
    }

    // Frees the worklist, and what joins it meanwhile.
    fn settle(&mut self, mut dying: u16)
        requires { Working (rooms (places_in self.old)) (places_in self.old) self.old.free dying [] }
        ensures cells { Settled (rooms (places_in self.old)) (places_in self.new) self.new.free }
        ensures spare { SameSpare self.old.places self.new.places }
    {
        while let Cell::Dying { left, right, next } = at(&self.places, Address { at: dying }) {
            let freed = Cell::Free { next: self.free };
            self.places.set(Address { at: dying }, freed);
            self.free = dying;
            dying = lower(&mut self.places, left, next);
            dying = lower(&mut self.places, right, dying);
        }
    }

    // One hold less.
    pub(crate) fn unhold(&mut self, place: Address, pair: Pair)
        requires sound { Sound (places_in self.old) self.old.free }
        requires found { Taken pair ≡ cell_at (places_in self.old) place.at }
        requires held { 0 < pair.holds }
        ensures cells { Settled (slice_set (rooms (places_in self.old)) place.at (taken pair.left pair.right (pair.holds - 1))) (places_in self.new) self.new.free }
        ensures spare { SameSpare self.old.places self.new.places }
    {
        if pair.holds == 1 && pair.named == 0 {
            let Pair { left, right, .. } = pair;
            let next = 0;
            self.places.set(place, Cell::Dying { left, right, next });
            self.settle(place.at);
            return;
        }
        let holds = pair.holds - 1;
        self.places.set(place, Cell::Taken(Pair { holds, ..pair }));
    }

    // The old value of a slot gives way to another.
    pub(crate) fn replace(&mut self, place: Address, side: Side, old: Value, value: Value)
        requires { MayPut (places_in self.old) self.old.free place.at side old value }
        ensures cells { Settled (written (rooms (places_in self.old)) place.at side value) (places_in self.new) self.new.free }
        ensures spare { SameSpare self.old.places self.new.places }
    {
        raise(&mut self.places, value);
        set_slot(&mut self.places, place, side, value);
        let dying = lower(&mut self.places, old, 0);
        self.settle(dying);
    }

    // Takes the first free place; `next` is the one after it.
    pub(crate) fn take(&mut self, left: Value, right: Value, next: u16) -> Address
        requires { MayTake (places_in self.old) self.old.free next left right }
        ensures place { result.at ≡ self.old.free }
        ensures sound { Sound (places_in self.new) self.new.free }
        ensures rooms { rooms (places_in self.new) ≡ slice_set (rooms (places_in self.old)) result.at (taken left right 1) }
        ensures spare { SameSpare self.old.places self.new.places }
    {
        let place = Address { at: self.free };
        raise(&mut self.places, left);
        raise(&mut self.places, right);
        let pair = Pair {
            left,
            right,
            holds: 1,
            named: 0,
        };
        self.places.set(place, Cell::Taken(pair));
        self.free = next;
        place
    }
}

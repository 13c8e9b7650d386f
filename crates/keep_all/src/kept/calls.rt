// What a heap that frees nothing does.
ghost use Rattle.std.specs.Prelude.{◌≡◌, min, drop, vec_len, position, slice_set};
ghost use Rattle.heap.specs.Model.{Makes, Holds, LetsGo, Puts, all_free, room_at, taken_at, held_at, names_only};
ghost use Rattle.heap.specs.Places.{SameSpare};
ghost use Rattle.heap.specs.Reach.{Closed};
ghost use Rattle.keep_all.specs.Cells.{room_of, is_free};
ghost use Rattle.keep_all.specs.Kept.{model_of, spare_of, FirstFree, TakesFirst, keeps_all, Keeps};
ghost use Rattle.heap.proofs.Rooms.{closed_from_names};
ghost use Rattle.std.proofs.Common.{rules, arith};

use super::KeepAllHeap;
use crate::cell::Cell;
use heap::{Address, Heap, HeapRefusal, Places, Side, Value};

impl KeepAllHeap {
    // The first 1,024 of the cells become free places; the others are left as they are.
    pub fn new(cells: Vec<Cell>) -> KeepAllHeap
        ensures model { model_of result ≡ all_free (min 1024 (vec_len cells)) }
        ensures spare { spare_of result ≡ drop 1024 cells.items }
        ensures count { vec_len result.places.cells ≡ vec_len cells }
        ensures keeps { Keeps }
    {
        let mut places = Places::new(cells);
        // `fill` was tried: over any cell it owes a clone that cannot fail, and what `fill_with` wrote the proof did not see.
        for at in 0..places.len() {
            places.set(Address { at }, Cell::Free);
        }
        KeepAllHeap { places }
    }

    // The vector that the heap was given, with what now stands in it.
    pub fn into_cells(self) -> Vec<Cell>
        ensures { result ≡ self.places.cells }
    {
        let KeepAllHeap { places } = self;
        places.into_cells()
    }

    fn at(&self, place: Address) -> Cell
        ensures { room_of result ≡ room_at (model_of self.now) place.at }
    {
        self.places.get(place).unwrap_or(Cell::Free)
    }

    // `SameSpare`, here and in each call: a fact about two states, which no field or model can hold.
    fn write(&mut self, place: Address, cell: Cell)
        requires { Closed (slice_set (model_of self.old) place.at (room_of cell)) }
        ensures model { model_of self.new ≡ slice_set (model_of self.old) place.at (room_of cell) }
        ensures spare { SameSpare self.old.places self.new.places }
    {
        self.places.set(place, cell);
    }

    fn first_free(&self) -> Option<Address>
        ensures { FirstFree (model_of self.now) result }
    {
        let at = free_index(self.places.as_slice())?;
        Some(Address { at: at as u16 })
    }

    fn names_held(&self, value: Value) -> bool
        ensures { result ≡ names_only (held_at (model_of self.now)) value }
    {
        value
            .address()
            .is_none_or(|place| self.at(place).holds() > 0)
    }

    fn names_taken(&self, value: Value) -> bool
        ensures { result ≡ names_only (taken_at (model_of self.now)) value }
    {
        value
            .address()
            .is_none_or(|place| self.at(place).is_taken())
    }
}

// The number of the first free cell.
fn free_index(cells: &[Cell]) -> Option<usize>
    ensures { result ≡ position is_free cells.now }
{
    cells.iter().position(|cell| !cell.is_taken())
}

impl Heap for KeepAllHeap {
    ghost model = { model_of };

    ghost rule = { keeps_all };

    ghost safe = { first_of (Prim.search rules, Prim.grind (arith, Self.row.coded.inj)) };

    ghost closed = { λ h. closed_from_names (model_of h) h.closed };

    fn make(&mut self, left: Value, right: Value) -> Result<Address, HeapRefusal>
        ensures makes { Makes keeps_all (model_of self.old) left right result (model_of self.new) }
        ensures first { TakesFirst (model_of self.old) result }
        ensures spare { SameSpare self.old.places self.new.places }
    {
        if !(self.names_held(left) && self.names_held(right)) {
            return Err(HeapRefusal::NoHold);
        }
        let place = self.first_free().ok_or(HeapRefusal::Full)?;
        let cell = Cell::Taken {
            left,
            right,
            holds: 1,
        };
        self.write(place, cell);
        Ok(place)
    }

    fn hold(&mut self, place: Address) -> Result<(), HeapRefusal>
        ensures holds { Holds (model_of self.old) place result (model_of self.new) }
        ensures spare { SameSpare self.old.places self.new.places }
    {
        let cell = self.at(place);
        if !cell.is_taken() {
            return Err(HeapRefusal::NotTaken);
        }
        let more = cell
            .holds()
            .checked_add(1)
            .ok_or(HeapRefusal::TooManyHolds)?;
        self.write(place, cell.with_holds(more));
        Ok(())
    }

    fn let_go(&mut self, place: Address) -> Result<(), HeapRefusal>
        ensures lets_go { LetsGo keeps_all (model_of self.old) place result (model_of self.new) }
        ensures spare { SameSpare self.old.places self.new.places }
    {
        let cell = self.at(place);
        let fewer = cell.holds().checked_sub(1).ok_or(HeapRefusal::NoHold)?;
        self.write(place, cell.with_holds(fewer));
        Ok(())
    }

    fn look(&self, place: Address, side: Side) -> Result<Value, HeapRefusal> {
        let cell = self.at(place);
        if !cell.is_taken() {
            return Err(HeapRefusal::NotTaken);
        }
        Ok(cell.slot(side))
    }

    fn put(&mut self, place: Address, side: Side, value: Value) -> Result<(), HeapRefusal>
        ensures puts { Puts keeps_all (model_of self.old) place side value result (model_of self.new) }
        ensures spare { SameSpare self.old.places self.new.places }
    {
        let cell = self.at(place);
        if !(cell.is_taken() && self.names_taken(value)) {
            return Err(HeapRefusal::NotTaken);
        }
        if !cell.slot(side).same_kind(value) {
            return Err(HeapRefusal::KindChange);
        }
        self.write(place, cell.with_slot(side, value));
        Ok(())
    }
}

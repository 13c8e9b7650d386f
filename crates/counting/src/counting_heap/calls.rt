// What a counting heap does.
ghost use Rattle.std.specs.Prelude.{◌≡◌, min, drop, vec_len};
ghost use Rattle.heap.specs.Model.{all_free, Makes, Holds, LetsGo, Puts};
ghost use Rattle.heap.specs.Places.{SameSpare};
ghost use Rattle.counting.specs.Rule.{counting_rule, RuleSettles, OneResult, LeftUpheld, Drains};
ghost use Rattle.counting.specs.Cells.{places_in};
ghost use Rattle.counting.specs.Work.{Finds};
ghost use Rattle.counting.specs.Whole.{model_of, spare_of};
ghost use Rattle.counting.specs.Laws.{rule_safe, sound_closed};

use super::CountingHeap;
use crate::cell::{Cell, Pair};
use crate::names::at;
use crate::store::Store;
use heap::{Address, Heap, HeapRefusal, Side, Value};

impl CountingHeap {
    // The first 1,024 cells are the places, all free; the others are not used.
    pub fn new(cells: Vec<Cell>) -> CountingHeap
        ensures model { model_of result ≡ all_free (min 1024 (vec_len cells)) }
        ensures spare { spare_of result ≡ drop 1024 cells.items }
        ensures long { vec_len result.store.places.cells ≡ vec_len cells }
        ensures settles { RuleSettles }
        ensures one { OneResult }
        ensures upheld { LeftUpheld }
        ensures drains { Drains }
    {
        let store = Store::fresh(cells);
        CountingHeap { store }
    }

    pub fn into_cells(self) -> Vec<Cell>
        ensures { result ≡ self.store.places.cells }
    {
        let CountingHeap { store } = self;
        let Store { places, free: _ } = store;
        places.into_cells()
    }

    fn find(&self, place: Address) -> Option<Pair>
        ensures { Finds (places_in self.now.store) place.at result }
    {
        match at(&self.store.places, place) {
            Cell::Taken(pair) => Some(pair),
            Cell::Free { .. } | Cell::Dying { .. } => None,
        }
    }
}

impl Heap for CountingHeap {
    ghost model = { model_of };

    ghost rule = { counting_rule };

    ghost safe = { rule_safe };

    ghost closed = { λ h. sound_closed (places_in h.store) h.store.free h.sound };

    fn make(&mut self, left: Value, right: Value) -> Result<Address, HeapRefusal>
        ensures call { Makes counting_rule (model_of self.old) left right result (model_of self.new) }
        ensures rest { SameSpare self.old.store.places self.new.store.places }
    {
        if !self.store.both_held(left, right) {
            return Err(HeapRefusal::NoHold);
        }
        let next = self.store.next_free().ok_or(HeapRefusal::Full)?;
        Ok(self.store.take(left, right, next))
    }

    fn hold(&mut self, place: Address) -> Result<(), HeapRefusal>
        ensures call { Holds (model_of self.old) place result (model_of self.new) }
        ensures rest { SameSpare self.old.store.places self.new.store.places }
    {
        let pair = self.find(place).ok_or(HeapRefusal::NotTaken)?;
        let holds = pair.holds.checked_add(1).ok_or(HeapRefusal::TooManyHolds)?;
        let held = Pair { holds, ..pair };
        self.store.places.set(place, Cell::Taken(held));
        Ok(())
    }

    fn let_go(&mut self, place: Address) -> Result<(), HeapRefusal>
        ensures call { LetsGo counting_rule (model_of self.old) place result (model_of self.new) }
        ensures rest { SameSpare self.old.store.places self.new.store.places }
    {
        let pair = self.find(place).ok_or(HeapRefusal::NoHold)?;
        if pair.holds == 0 {
            return Err(HeapRefusal::NoHold);
        }
        self.store.unhold(place, pair);
        Ok(())
    }

    fn look(&self, place: Address, side: Side) -> Result<Value, HeapRefusal> {
        let pair = self.find(place).ok_or(HeapRefusal::NotTaken)?;
        Ok(side.of(pair.left, pair.right))
    }

    fn put(&mut self, place: Address, side: Side, value: Value) -> Result<(), HeapRefusal>
        ensures call { Puts counting_rule (model_of self.old) place side value result (model_of self.new) }
        ensures rest { SameSpare self.old.store.places self.new.store.places }
    {
        let pair = self.find(place).ok_or(HeapRefusal::NotTaken)?;
        if !self.store.is_taken(value) {
            return Err(HeapRefusal::NotTaken);
        }
        let old = side.of(pair.left, pair.right);
        if !old.same_kind(value) {
            return Err(HeapRefusal::KindChange);
        }
        self.store.replace(place, side, old, value);
        Ok(())
    }
}

// Steps on the cells of the places: how many slots name each place, and what the slots hold.
// Functions and no methods: `Places` is another crate's type, and no step here touches the free list.
ghost use Rattle.std.specs.Prelude.{◌≡◌, ◌<◌, true, slice_set};
ghost use Rattle.heap.specs.Model.{room_at};
ghost use Rattle.heap.specs.Places.{places_of, SameSpare};
ghost use Rattle.counting.specs.Cells.{cell_at, room_of, rooms};
ghost use Rattle.counting.specs.Work.{raised, lowered, lowered_head, with_slot_of, named_by, is_at};

use crate::cell::{Cell, Pair};
use heap::{Address, Places, Side, Value};

// The cell of a place; past the last a free one.
pub(crate) fn at(places: &Places<Cell>, place: Address) -> Cell
    ensures cell { result ≡ cell_at (places_of places.now) place.at }
    ensures room { room_of result ≡ room_at (rooms (places_of places.now)) place.at }
{
    places.get(place).unwrap_or(Cell::Free { next: 0 })
}

// One slot more names the value's place.
pub(crate) fn raise(places: &mut Places<Cell>, value: Value)
    requires { named_by value (places_of places.old) < 65535 }
    ensures cells { places_of places.new ≡ raised value (places_of places.old) }
    ensures spare { SameSpare places.old places.new }
{
    if let Value::At(place) = value {
        if let Cell::Taken(pair) = at(places, place) {
            let named = pair.named + 1;
            places.set(place, Cell::Taken(Pair { named, ..pair }));
        }
    }
}

// One slot less names the value's place, which joins the worklist if nothing keeps it now; answers the worklist's first.
pub(crate) fn lower(places: &mut Places<Cell>, value: Value, dying: u16) -> u16
    requires { is_at value ≡ true → 0 < named_by value (places_of places.old) }
    ensures cells { places_of places.new ≡ lowered value dying (places_of places.old) }
    ensures head { result ≡ lowered_head value dying (places_of places.old) }
    ensures spare { SameSpare places.old places.new }
{
    if let Value::At(place) = value {
        if let Cell::Taken(pair) = at(places, place) {
            if pair.holds == 0 && pair.named == 1 {
                let Pair { left, right, .. } = pair;
                let next = dying;
                places.set(place, Cell::Dying { left, right, next });
                return place.at;
            }
            let named = pair.named - 1;
            places.set(place, Cell::Taken(Pair { named, ..pair }));
        }
    }
    dying
}

// Keep-all's `with_slot` has this match, and answers a cell: what a function of both answers each would take apart.
pub(crate) fn set_slot(places: &mut Places<Cell>, place: Address, side: Side, value: Value)
    ensures cells { places_of places.new ≡ slice_set (places_of places.old) place.at (with_slot_of (cell_at (places_of places.old) place.at) side value) }
    ensures spare { SameSpare places.old places.new }
{
    if let Cell::Taken(mut pair) = at(places, place) {
        match side {
            Side::Left => pair.left = value,
            Side::Right => pair.right = value,
        }
        places.set(place, Cell::Taken(pair));
    }
}

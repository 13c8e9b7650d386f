// The cells that a heap is made over: the first 1,024 are its places, the others are spare.
ghost use Rattle.std.specs.Prelude.{◌≡◌, length, slice_get, slice_set};
ghost use Rattle.heap.specs.Places.{places_of, SameSpare};

use crate::types::Address;

const MOST_PLACES: usize = 1024;

#[derive(Drop)]
pub struct Places<C> {
    cells: Vec<C>,
}

impl<C: Copy> Places<C> {
    pub fn new(cells: Vec<C>) -> Places<C>
        ensures { result.cells ≡ cells }
    {
        Places { cells }
    }

    // The vector that was given, with what now stands in it.
    pub fn into_cells(self) -> Vec<C>
        ensures { result ≡ self.cells }
    {
        let Places { cells } = self;
        cells
    }

    // The cells of the places.
    pub fn as_slice(&self) -> &[C]
        ensures { result.now ≡ places_of self.now }
    {
        &self.cells[..self.cells.len().min(MOST_PLACES)]
    }

    pub fn len(&self) -> u16
        ensures { result ≡ length (places_of self.now) }
    {
        self.as_slice().len() as u16
    }

    // The cell of a place, or none past the last.
    pub fn get(&self, place: Address) -> Option<C>
        ensures { result ≡ slice_get (places_of self.now) place.at }
    {
        self.as_slice().get(place.at as usize).copied()
    }

    // Past the last place nothing is written.
    // `SameSpare` is a fact about two states, which no field or model can hold: each step over this says it again.
    pub fn set(&mut self, place: Address, cell: C)
        ensures places { places_of self.new ≡ slice_set (places_of self.old) place.at cell }
        ensures spare { SameSpare self.old self.new }
    {
        if place.at < self.len() {
            self.cells[place.at as usize] = cell;
        }
    }
}

// A heap that counts, for each place, the slots that name it.
ghost use Rattle.counting.specs.Cells.{places_in, Sound};

use crate::store::Store;

mod calls;

#[derive(Drop)]
pub struct CountingHeap {
    store: Store,
    ghost sound: { Sound (places_in store) store.free },
}

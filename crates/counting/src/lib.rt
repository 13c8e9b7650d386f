// A heap that counts the slots that name each place, and frees a place once nothing keeps it.
#![tactic(auto)]

mod cell;
mod counting_heap;
mod names;
mod store;

pub use cell::{Cell, Pair};
pub use counting_heap::CountingHeap;

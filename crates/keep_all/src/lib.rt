// A heap that frees nothing: a place that is taken stays taken.
#![tactic(auto)]

mod cell;
mod kept;

pub use cell::Cell;
pub use kept::KeepAllHeap;

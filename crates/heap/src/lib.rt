// The heap of two-slot cells that scripts build: what every heap promises, and code that is proved over all of them.
#![tactic(auto)]

mod interface;
mod numbers;
mod places;
mod release;
mod types;
mod values;

pub use interface::Heap;
pub use places::Places;
pub use release::let_all_go;
pub use types::{Address, HeapRefusal, Side, Value};

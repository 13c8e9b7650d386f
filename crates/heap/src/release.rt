// Code over any heap that gives back the holds of a list of values.
ghost use Rattle.std.specs.Prelude.{◌≡◌, [], reverse, vec_capacity};
ghost use Rattle.heap.specs.Release.{Releases};

use crate::interface::Heap;
use crate::types::{HeapRefusal, Value};

// Lets go of every place that a value names, the last value first, and answers the first refusal.
pub fn let_all_go<H: Heap>(heap: &mut H, values: &mut Vec<Value>) -> Result<(), HeapRefusal>
    ensures empty { values.new.items ≡ [] }
    ensures capacity { vec_capacity values.new ≡ vec_capacity values.old }
    ensures releases { Releases H.rule (H.model heap.old) (reverse values.old.items) result (H.model heap.new) }
{
    let mut first = Ok(());
    while let Some(value) = values.pop() {
        if let Value::At(place) = value {
            let answer = heap.let_go(place);
            // The first refusal stands, and what is left is still let go.
            first = first.and(answer);
        }
    }
    first
}

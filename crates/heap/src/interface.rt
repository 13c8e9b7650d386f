// What every heap does, said over its model.
ghost use Rattle.heap.specs.Model.{Model, Rule, Makes, Holds, LetsGo, Looks, Puts};
ghost use Rattle.heap.specs.Reach.{Safe, Closed};

use crate::types::{Address, HeapRefusal, Side, Value};

pub trait Heap {
    // Which places are taken, their slots and their holds.
    ghost model: { Self → Model };

    // What the calls free, and when.
    ghost rule: { Rule };

    // Takes a free place with these slots and one hold.
    fn make(&mut self, left: Value, right: Value) -> Result<Address, HeapRefusal>
        ensures { Makes rule (model self.old) left right result (model self.new) };

    // One hold more.
    fn hold(&mut self, place: Address) -> Result<(), HeapRefusal>
        ensures { Holds (model self.old) place result (model self.new) };

    // One hold less.
    fn let_go(&mut self, place: Address) -> Result<(), HeapRefusal>
        ensures { LetsGo rule (model self.old) place result (model self.new) };

    // The value in a slot.
    fn look(&self, place: Address, side: Side) -> Result<Value, HeapRefusal>
        ensures { Looks (model self.now) place side result };

    // Another value in a slot. Place and side stay two parameters, as a script's calls give them.
    fn put(&mut self, place: Address, side: Side, value: Value) -> Result<(), HeapRefusal>
        ensures { Puts rule (model self.old) place side value result (model self.new) };

    // Only places that no held place reaches are freed.
    ghost safe: { Safe rule };

    // Slots of taken places name taken places.
    ghost closed: { (h : Self) → Closed (model h) };
}

// The values of slots: which slot is meant, which place is named, and which kind of value it is.
ghost use Rattle.std.specs.Prelude.{◌≡◌};
ghost use Rattle.heap.specs.Model.{address_of, is_number, same_kind, slot_of, taken};

use crate::types::{Address, Side, Value};

impl Side {
    // The one of two slots that stands on this side.
    // Left and right stay two values: `make` is given them apart, and a cell holds them beside its other fields.
    pub fn of(self, left: Value, right: Value) -> Value
        ensures { result ≡ slot_of (taken left right 0) self }
    {
        match self {
            Side::Left => left,
            Side::Right => right,
        }
    }
}

impl Value {
    fn is_number(self) -> bool
        ensures { result ≡ is_number self }
    {
        matches!(self, Value::Number(_))
    }

    // The place that the value names, if it names one.
    pub fn address(self) -> Option<Address>
        ensures { result ≡ address_of self }
    {
        match self {
            Value::At(place) => Some(place),
            Value::Number(_) | Value::Nil => None,
        }
    }

    // Both are whole numbers, or neither is.
    pub fn same_kind(self, other: Value) -> bool
        ensures { result ≡ same_kind self other }
    {
        self.is_number() == other.is_number()
    }
}

// What a heap's calls take and answer.

// A place of a heap.
#[derive(Clone, Copy, Debug, PartialEq, Eq)]
pub struct Address {
    pub at: u16,
}

#[derive(Clone, Copy, Debug, PartialEq, Eq)]
pub enum Side {
    Left,
    Right,
}

// A whole number, nil, or the cell at an address.
#[derive(Clone, Copy, Debug, PartialEq, Eq)]
pub enum Value {
    Number(i64),
    Nil,
    At(Address),
}

// Why a call does nothing; each has its number.
#[derive(Clone, Copy, Debug, PartialEq, Eq)]
pub enum HeapRefusal {
    NotTaken = 40,
    NoHold = 41,
    TooManyHolds = 42,
    KindChange = 43,
    Full = 44,
}

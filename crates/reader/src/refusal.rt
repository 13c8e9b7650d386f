// Why a source is not read.
use tokens::Trouble;

#[derive(Clone, Copy, Debug, PartialEq, Eq)]
pub enum Reason {
    TooLong,
    Trouble(Trouble),
    Wrong,
    TooDeep,
    TooMany,
}

#[derive(Clone, Copy, Debug, PartialEq, Eq)]
pub struct ReadRefusal {
    pub at: usize,
    pub reason: Reason,
}
